//! A query in the text of a certificate: each column is written with its table.

ghost use Rattle.std.specs.Prelude.{◌≡◌, ◌++◌, ◌<◌, IfErr, OnOk, Contains, codes, length};
ghost use Rattle.std.specs.List.{flat_map, join_by};
ghost use Rattle.cqa_model.specs.declared.query.Atom.{Atom as AtomValue};
ghost use Rattle.cqa_model.specs.Query.{atom_at};
ghost use Rattle.cqa_model.specs.Shape.{IsInRange};
ghost use Rattle.rewrite_text.specs.Texts.{asked_text, atom_name, condition_text, from_text, name_at, qualified_name, spaced_operator, where_text};
ghost use Rattle.rewrite_text.specs.Drafts.{AreColumnsOf, AreConditionsOf, IsConditionOf, IsSchemaAt, Overruns, RefusesBy, Writes};

use crate::draft::{Draft, TooLong};
use cqa_model::{Atom, ColRef, Cond, Op, Schema};
use cqa_value::{Fail, NoMemory, literal_text};
use table_blocks::{Bound, Database};

/// Appends words.
pub fn append(words: &str, out: &mut Vec<u8>) -> Result<(), NoMemory>
    ensures { OnOk result (out.new.items ≡ out.old.items ++ words.now) }
{
    out.extend_from_slice(words.as_bytes())?;
    Ok(())
}

/// The schema of an atom's table.
pub fn schema_of<'a>(bound: &Bound<'a>, atom: u32) -> &'a Schema
    ensures { IsSchemaAt bound.now.db.now (atom_at bound.now.query.now atom).table result.now }
{
    bound.db.schema(bound.table_of(atom))
}

/// Appends the name of an atom's table.
pub fn append_atom(bound: &Bound<'_>, atom: u32, out: &mut Vec<u8>) -> Result<(), NoMemory>
    ensures { OnOk result (out.new.items ≡ out.old.items ++ atom_name bound.now.db.now bound.now.query.now atom) }
{
    append(schema_of(bound, atom).name.as_str(), out)
}

/// Appends a column of an atom, behind its table.
fn append_column(bound: &Bound<'_>, column: ColRef, out: &mut Vec<u8>) -> Result<(), NoMemory>
    requires { IsInRange bound.now.query.now.atoms column }
    ensures { OnOk result (out.new.items ≡ out.old.items ++ qualified_name bound.now.db.now bound.now.query.now column) }
{
    let schema = schema_of(bound, column.atom);
    append(schema.name.as_str(), out)?;
    append(".", out)?;
    append(
        schema.columns.as_slice()[column.col as usize].name.as_str(),
        out,
    )
}

/// An operator, between spaces.
fn operator_words(op: Op) -> &'static str
    ensures { result.now ≡ spaced_operator op }
{
    match op {
        Op::Eq => " = ",
        Op::Ne => " <> ",
        Op::Lt => " < ",
        Op::Le => " <= ",
        Op::Gt => " > ",
        Op::Ge => " >= ",
    }
}

/// Appends a condition.
fn append_condition(bound: &Bound<'_>, condition: &Cond, out: &mut Vec<u8>) -> Result<(), NoMemory>
    requires { IsConditionOf bound.now.query.now condition.now }
    ensures { OnOk result (out.new.items ≡ out.old.items ++ condition_text bound.now.db.now bound.now.query.now condition.now) }
{
    match condition {
        Cond::Join { left, right } => {
            append_column(bound, *left, out)?;
            append(" = ", out)?;
            append_column(bound, *right, out)
        }
        Cond::Test { col, op, value } => {
            append_column(bound, *col, out)?;
            append(operator_words(*op), out)?;
            literal_text(value, out)
        }
    }
}

/// Appends columns, each behind a comma.
fn append_more_columns(
    bound: &Bound<'_>,
    columns: &[ColRef],
    out: &mut Vec<u8>,
) -> Result<(), NoMemory>
    requires { AreColumnsOf bound.now.query.now columns.now }
    ensures { OnOk result (out.new.items ≡ out.old.items ++ flat_map (λ column. codes ", " ++ qualified_name bound.now.db.now bound.now.query.now column) columns.now) }
{
    for column in columns {
        append(", ", out)?;
        append_column(bound, *column, out)?;
    }
    Ok(())
}

/// Appends what is asked: whether there is a witness, or the answer's columns.
pub fn append_asked(
    bound: &Bound<'_>,
    columns: &[ColRef],
    out: &mut Vec<u8>,
) -> Result<(), NoMemory>
    requires { AreColumnsOf bound.now.query.now columns.now }
    ensures { OnOk result (out.new.items ≡ out.old.items ++ asked_text bound.now.db.now bound.now.query.now columns.now) }
{
    let Some((first, rest)) = columns.split_first() else {
        return append("exists", out);
    };
    append("select ", out)?;
    append_column(bound, *first, out)?;
    append_more_columns(bound, rest, out)
}

/// Appends the names of atoms' tables, each behind a comma.
fn append_more_atoms(bound: &Bound<'_>, atoms: &[u32], out: &mut Vec<u8>) -> Result<(), NoMemory>
    ensures { OnOk result (out.new.items ≡ out.old.items ++ flat_map (λ F. codes ", " ++ atom_name bound.now.db.now bound.now.query.now F) atoms.now) }
{
    for atom in atoms {
        append(", ", out)?;
        append_atom(bound, *atom, out)?;
    }
    Ok(())
}

/// Appends the names of atoms' tables, with commas.
pub fn append_atoms(bound: &Bound<'_>, atoms: &[u32], out: &mut Vec<u8>) -> Result<(), NoMemory>
    ensures { OnOk result (out.new.items ≡ out.old.items ++ join_by (atom_name bound.now.db.now bound.now.query.now) (codes ", ") atoms.now) }
{
    let Some((first, rest)) = atoms.split_first() else {
        return Ok(());
    };
    append_atom(bound, *first, out)?;
    append_more_atoms(bound, rest, out)
}

/// Appends the names of tables, each behind a comma.
fn append_more_tables(db: &Database, atoms: &[Atom], out: &mut Vec<u8>) -> Result<(), NoMemory>
    requires { (atom : AtomValue) → Contains atoms.now atom → atom.table < length db.now }
    ensures { OnOk result (out.new.items ≡ out.old.items ++ flat_map (λ (atom : AtomValue). codes ", " ++ name_at db.now atom.table) atoms.now) }
{
    for atom in atoms {
        append(", ", out)?;
        append_table(db, atom.table, out)?;
    }
    Ok(())
}

/// Appends the name of a table.
fn append_table(db: &Database, table: u32, out: &mut Vec<u8>) -> Result<(), NoMemory>
    requires { table < length db.now }
    ensures { OnOk result (out.new.items ≡ out.old.items ++ name_at db.now table) }
{
    append(db.schema(table).name.as_str(), out)
}

/// Appends the names of tables, with commas.
fn append_tables(db: &Database, atoms: &[Atom], out: &mut Vec<u8>) -> Result<(), NoMemory>
    requires { (atom : AtomValue) → Contains atoms.now atom → atom.table < length db.now }
    ensures { OnOk result (out.new.items ≡ out.old.items ++ join_by (λ (atom : AtomValue). name_at db.now atom.table) (codes ", ") atoms.now) }
{
    let Some((first, rest)) = atoms.split_first() else {
        return Ok(());
    };
    append_table(db, first.table, out)?;
    append_more_tables(db, rest, out)
}

/// Appends the tables of a query.
pub fn append_from(db: &Database, atoms: &[Atom], out: &mut Vec<u8>) -> Result<(), NoMemory>
    requires { (atom : AtomValue) → Contains atoms.now atom → atom.table < length db.now }
    ensures { OnOk result (out.new.items ≡ out.old.items ++ from_text db.now atoms.now) }
{
    append(" from ", out)?;
    append_tables(db, atoms, out)
}

/// Appends conditions, each behind an `and`.
fn append_more_conditions(
    bound: &Bound<'_>,
    conditions: &[Cond],
    draft: &mut Draft,
) -> Result<(), Fail<TooLong>>
    requires { AreConditionsOf bound.now.query.now conditions.now }
    ensures ok { OnOk result (Writes (flat_map (λ condition. codes " and " ++ condition_text bound.now.db.now bound.now.query.now condition) conditions.now) draft.old draft.new) }
    ensures over { IfErr result (RefusesBy (Overruns (draft.old.out.items ++ flat_map (λ condition. codes " and " ++ condition_text bound.now.db.now bound.now.query.now condition) conditions.now) draft.old.start)) }
{
    for condition in conditions {
        append(" and ", &mut draft.out)?;
        append_condition(bound, condition, &mut draft.out)?;
        draft.check()?;
    }
    Ok(())
}

/// Appends the conditions of a query, if there are some; each is small beside the limit, which is looked at behind each.
pub fn append_where(
    bound: &Bound<'_>,
    conditions: &[Cond],
    draft: &mut Draft,
) -> Result<(), Fail<TooLong>>
    requires { AreConditionsOf bound.now.query.now conditions.now }
    ensures ok { OnOk result (Writes (where_text bound.now.db.now bound.now.query.now conditions.now) draft.old draft.new) }
    ensures over { IfErr result (RefusesBy (Overruns (draft.old.out.items ++ where_text bound.now.db.now bound.now.query.now conditions.now) draft.old.start)) }
{
    let Some((first, rest)) = conditions.split_first() else {
        return Ok(());
    };
    append(" where ", &mut draft.out)?;
    append_condition(bound, first, &mut draft.out)?;
    append_more_conditions(bound, rest, draft)
}
