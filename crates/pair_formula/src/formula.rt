//! The formula of a row of a pair over its full blocks: one of each full block's rows, and not both rows of a witness whose rows
//! are in full blocks. A repair keeps out of each other witness by a row that is in none, so the formula decides the row.

ghost use Rattle.std.specs.Prelude.{◌≡◌, ◌+◌, ◌-◌, ◌<◌, ◌≤◌, ◌↔◌, ◌^◌, suc, Contains, IfOk, length, map};
ghost use Rattle.cqa_model.specs.Certain.{IsCertain};
ghost use Rattle.cnf_form.specs.Literals.{literals};
ghost use Rattle.join_access.specs.Listing.{names_of};
ghost use Rattle.join_access.specs.declared.witness.Witness.{Witness as Named};
ghost use Rattle.cqa_model.specs.Graph.{IsPair};
ghost use Rattle.row_lists.specs.Clauses.{positive};
ghost use Rattle.row_lists.specs.Spans.{numbers_in};
ghost use Rattle.pair_refutation.specs.Graph.{not_both};
ghost use Rattle.pair_formula.specs.Full.{AddsPair, AddsPairs, IsRowNumber};
ghost use Rattle.pair_refutation.specs.Formulas.{IsPairFormula, IsUnsatisfiable};

use crate::full::full_blocks;
use cnf_form::{Clause, Cnf, Lit};
use cqa_value::{Items, NoMemory};
use join_access::Witness;
use row_lists::add_blocks;
use row_lists::numbering::{Numbering, find_span};
use row_lists::span::Span;
use row_witnesses::RowWitnesses;
use std::alloc::Global;

/// The number of the row at a place of the span's atom.
fn number_in(span: &Span, place: u32) -> u32
    requires from { span.now.start ≤ place }
    requires before { place < span.now.start + span.now.count }
    requires small { span.now.base + span.now.count < 2 ^ 32 }
    ensures { result ≡ suc (span.now.base + (place - span.now.start)) }
{
    span.base + 1 + (place - span.start)
}

/// The number of a row, if it is in one of the spans.
fn number_of(blocks: &Numbering, atom: u32, place: u32) -> Option<u32>
    ensures { IsRowNumber blocks.now.spans atom place result }
{
    let spans = blocks.spans.as_slice();
    match find_span(blocks, atom, place) {
        Some(found) => Some(number_in(&spans[found], place)),
        None => None,
    }
}

/// The clause of two rows that are not both kept.
fn not_both_of(alloc: Global, left: u32, right: u32) -> Result<Clause, NoMemory>
    ensures { IfOk result (λ clause. clause.lits ≡ not_both (record { left = left; right = right })) }
{
    let mut lits = Vec::with_capacity(alloc, 2)?;
    lits.push(Lit {
        var: left,
        positive: false,
    })?;
    lits.push(Lit {
        var: right,
        positive: false,
    })?;
    Ok(Clause {
        lits: Items::from_vec(lits),
    })
}

/// Adds the clause of a witness if both of its rows are in spans.
fn add_pair(
    alloc: Global,
    blocks: &Numbering,
    witness: &Witness,
    clauses: &mut Vec<Clause>,
) -> Result<(), NoMemory>
    requires { length witness.now.rows ≡ 2 }
    ensures { IfOk result (λ done. AddsPair blocks.now.spans witness.now.rows (literals clauses.old.items) (literals clauses.new.items)) }
{
    let names = witness.rows.as_slice();
    if let Some(left) = number_of(blocks, 0, names[0].place) {
        if let Some(right) = number_of(blocks, 1, names[1].place) {
            clauses.push(not_both_of(alloc, left, right)?)?;
        }
    }
    Ok(())
}

/// Adds the clause of each witness both of whose rows are in spans.
fn add_pairs(
    alloc: Global,
    blocks: &Numbering,
    witnesses: &[Witness],
    clauses: &mut Vec<Clause>,
) -> Result<(), NoMemory>
    requires { (w : Named) → Contains witnesses.now w → length w.rows ≡ 2 }
    ensures { IfOk result (λ done. AddsPairs blocks.now.spans (names_of witnesses.now) (literals clauses.old.items) (literals clauses.new.items)) }
{
    for witness in witnesses {
        add_pair(alloc, blocks, witness, clauses)?;
    }
    Ok(())
}

/// The clauses of full blocks, and of the witnesses in them.
fn clauses_of(
    alloc: Global,
    blocks: &Numbering,
    witnesses: &[Witness],
) -> Result<Items<Clause>, NoMemory>
    requires { (w : Named) → Contains witnesses.now w → length w.rows ≡ 2 }
    ensures { IfOk result (λ clauses. AddsPairs blocks.now.spans (names_of witnesses.now) (map (map positive) (map numbers_in blocks.now.spans)) (literals clauses)) }
{
    let mut clauses = Vec::with_capacity(alloc, blocks.spans.as_slice().len() + witnesses.len())?;
    add_blocks(alloc, blocks, &mut clauses)?;
    add_pairs(alloc, blocks, witnesses, &mut clauses)?;
    Ok(Items::from_vec(clauses))
}

/// The formula over full blocks of the row whose witnesses these are. No assignment satisfies it exactly where the row is
/// certain.
pub(crate) fn full_formula(alloc: Global, witnesses: &RowWitnesses<'_>) -> Result<Cnf, NoMemory>
    requires { IsPair witnesses.now.bound.now.query.now }
    ensures graph { IfOk result IsPairFormula }
    ensures certain { IfOk result (λ cnf. IsUnsatisfiable cnf ↔ IsCertain witnesses.now.bound.now.db.now witnesses.now.bound.now.query.now witnesses.now.row.now) }
{
    let blocks = full_blocks(alloc, witnesses)?;
    let clauses = clauses_of(alloc, &blocks, witnesses.list.as_slice())?;
    Ok(Cnf {
        vars: blocks.vars,
        clauses,
    })
}
