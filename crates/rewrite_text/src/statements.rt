//! The statements of a certificate.

ghost use Rattle.std.specs.Prelude.{◌≡◌, ◌++◌, ◌∷◌, ◌<◌, [], Contains, IfErr, OnOk, codes, length, slice_get};
ghost use Rattle.std.specs.List.{flat_map, join_by};
ghost use Rattle.cqa_value.specs.Literals.{row_bytes};
ghost use Rattle.cqa_model.specs.declared.query.Atom.{Atom as AtomValue};
ghost use Rattle.rewrite_text.specs.Texts.{asked_text, certificate_block, certificate_create, certificate_creates, certificate_order, certificate_prove, from_text, atom_name};
ghost use Rattle.rewrite_text.specs.Drafts.{AddsStatements, IsBetween, IsTooLongBehind, Overruns, RefusesBy, Writes};

use crate::draft::{Draft, TooLong};
use crate::query::{append, append_asked, append_atom, append_atoms, append_from, append_where};
use cqa_model::Atom;
use cqa_value::{Fail, NoMemory, Row, row_text};
use csv_rows::append_create;
use row_pieces::Rows;
use table_blocks::{Bound, Database};

/// Adds the statement that makes a table.
fn add_create(db: &Database, table: u32, draft: &mut Draft) -> Result<(), Fail<TooLong>>
    requires there { table < length db.now }
    requires between { IsBetween draft.old }
    ensures ok { OnOk result (AddsStatements (certificate_create (slice_get db.now table) ∷ []) draft.old draft.new) }
    ensures over { IfErr result (RefusesBy (IsTooLongBehind (length draft.old.out.items) (certificate_create (slice_get db.now table) ∷ []))) }
{
    append_create(db.schema(table), &mut draft.out)?;
    draft.end()
}

/// Adds the statements that make the tables of atoms.
pub fn add_creates(db: &Database, atoms: &[Atom], draft: &mut Draft) -> Result<(), Fail<TooLong>>
    requires there { (atom : AtomValue) → Contains atoms.now atom → atom.table < length db.now }
    requires between { IsBetween draft.old }
    ensures ok { OnOk result (AddsStatements (certificate_creates db.now atoms.now) draft.old draft.new) }
    ensures over { IfErr result (RefusesBy (IsTooLongBehind (length draft.old.out.items) (certificate_creates db.now atoms.now))) }
{
    for atom in atoms {
        add_create(db, atom.table, draft)?;
    }
    Ok(())
}

/// Appends what a row is proved for, up to the conditions.
fn append_claim(bound: &Bound<'_>, row: &Row, out: &mut Vec<u8>) -> Result<(), NoMemory>
    ensures { OnOk result (out.new.items ≡ out.old.items ++ (codes "prove row " ++ row_bytes row.now ++ codes " for " ++ asked_text bound.now.db.now bound.now.query.now bound.now.query.now.answer ++ from_text bound.now.db.now bound.now.query.now.atoms)) }
{
    append("prove row ", out)?;
    row_text(row, out)?;
    append(" for ", out)?;
    append_asked(bound, bound.query.answer.as_slice(), out)?;
    append_from(bound.db, bound.query.atoms.as_slice(), out)
}

/// Adds the statement that says which row is certain for which query.
pub fn add_prove(bound: &Bound<'_>, row: &Row, draft: &mut Draft) -> Result<(), Fail<TooLong>>
    requires { IsBetween draft.old }
    ensures ok { OnOk result (AddsStatements (certificate_prove bound.now.db.now bound.now.query.now row.now ∷ []) draft.old draft.new) }
    ensures over { IfErr result (RefusesBy (IsTooLongBehind (length draft.old.out.items) (certificate_prove bound.now.db.now bound.now.query.now row.now ∷ []))) }
{
    append_claim(bound, row, &mut draft.out)?;
    append_where(bound, bound.query.conds.as_slice(), draft)?;
    draft.end()
}

/// Adds the statement of the plan's order.
pub fn add_order(bound: &Bound<'_>, plan: &[u32], draft: &mut Draft) -> Result<(), Fail<TooLong>>
    requires { IsBetween draft.old }
    ensures ok { OnOk result (AddsStatements (certificate_order bound.now.db.now bound.now.query.now plan.now ∷ []) draft.old draft.new) }
    ensures over { IfErr result (RefusesBy (IsTooLongBehind (length draft.old.out.items) (certificate_order bound.now.db.now bound.now.query.now plan.now ∷ []))) }
{
    append("order ", &mut draft.out)?;
    append_atoms(bound, plan, &mut draft.out)?;
    draft.end()
}

/// Appends rows, each behind a comma.
fn append_more_rows(rows: &Rows<'_>, draft: &mut Draft) -> Result<(), Fail<TooLong>>
    ensures ok { OnOk result (Writes (flat_map (λ row. codes ", " ++ row_bytes row) rows.now) draft.old draft.new) }
    ensures over { IfErr result (RefusesBy (Overruns (draft.old.out.items ++ flat_map (λ row. codes ", " ++ row_bytes row) rows.now) draft.old.start)) }
{
    for at in 0..rows.len() {
        let row = rows.get(at);
        append(", ", &mut draft.out)?;
        row_text(row, &mut draft.out)?;
        draft.check()?;
    }
    Ok(())
}

/// Appends the rows of a block; each is small beside the limit, which is looked at behind each.
fn append_block_rows(block: &Rows<'_>, draft: &mut Draft) -> Result<(), Fail<TooLong>>
    ensures ok { OnOk result (Writes (join_by row_bytes (codes ", ") block.now) draft.old draft.new) }
    ensures over { IfErr result (RefusesBy (Overruns (draft.old.out.items ++ join_by row_bytes (codes ", ") block.now) draft.old.start)) }
{
    let Some((first, rest)) = block.split_first() else {
        return Ok(());
    };
    row_text(first, &mut draft.out)?;
    append_more_rows(&rest, draft)
}

/// Appends what stands before the rows of a block.
fn append_block_head(bound: &Bound<'_>, atom: u32, out: &mut Vec<u8>) -> Result<(), NoMemory>
    ensures { OnOk result (out.new.items ≡ out.old.items ++ (codes "block " ++ atom_name bound.now.db.now bound.now.query.now atom ++ codes " values ")) }
{
    append("block ", out)?;
    append_atom(bound, atom, out)?;
    append(" values ", out)
}

/// Adds the statement of a block.
pub fn add_block(
    bound: &Bound<'_>,
    atom: u32,
    block: &Rows<'_>,
    draft: &mut Draft,
) -> Result<(), Fail<TooLong>>
    requires { IsBetween draft.old }
    ensures ok { OnOk result (AddsStatements (certificate_block bound.now.db.now bound.now.query.now (record { atom = atom; rows = block.now }) ∷ []) draft.old draft.new) }
    ensures over { IfErr result (RefusesBy (IsTooLongBehind (length draft.old.out.items) (certificate_block bound.now.db.now bound.now.query.now (record { atom = atom; rows = block.now }) ∷ []))) }
{
    append_block_head(bound, atom, &mut draft.out)?;
    append_block_rows(block, draft)?;
    draft.end()
}
