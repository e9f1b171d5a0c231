//! The formula of a row of a pair, read as a graph: blocks of variables, and pairs of variables that are not both to be true.
//! The blocks' rows are numbered one after the other, and each is a variable.

ghost use Rattle.std.specs.Prelude.{◌≡◌, ◌+◌, ◌++◌, ◌∷◌, ◌<◌, ◌^◌, [], IfOk, OnOk, cond, length, true, map};
ghost use Rattle.cnf_form.specs.declared.formula.Lit.{Lit as Literal};
ghost use Rattle.cnf_form.specs.Literals.{literals};
ghost use Rattle.pair_refutation.specs.Graph.{is_positive, pair_in, pairs_in};

use cnf_form::Clause;
use cqa_value::NoMemory;
use std::alloc::Global;

/// Two variables that are not both to be true: the row of a witness out of the first table, and that out of the second.
#[derive(Clone, Copy)]
pub struct Pair {
    pub left: u32,
    pub right: u32,
}

/// Whether a clause is that of a block.
fn is_block(clause: &Clause) -> bool
    ensures { result ≡ is_positive clause.now.lits }
{
    match clause.lits.as_slice() {
        [first, ..] => first.positive,
        [] => false,
    }
}

/// Appends the variables of a clause.
fn append_vars(clause: &Clause, var: &mut Vec<u32>) -> Result<(), NoMemory>
    ensures { OnOk result (var.new.items ≡ var.old.items ++ map (λ (l : Literal). l.var) clause.now.lits) }
{
    for lit in clause.lits.as_slice() {
        var.push(lit.var)?;
    }
    Ok(())
}

/// Appends the rows of a clause, if it is a block's, and where they end.
pub(crate) fn append_block(
    clause: &Clause,
    var: &mut Vec<u32>,
    start: &mut Vec<u32>,
) -> Result<(), NoMemory>
    requires { is_positive clause.now.lits ≡ true → length var.old.items + length clause.now.lits < 2 ^ 32 }
    ensures var { OnOk result (var.new.items ≡ var.old.items ++ cond (is_positive clause.now.lits) (map (λ (l : Literal). l.var) clause.now.lits) []) }
    ensures start { OnOk result (start.new.items ≡ start.old.items ++ cond (is_positive clause.now.lits) ((length var.old.items + length clause.now.lits) ∷ []) []) }
{
    if !is_block(clause) {
        return Ok(());
    }
    append_vars(clause, var)?;
    start.push(var.len() as u32)?;
    Ok(())
}

/// Appends the pair of a clause, if it is a pair's.
fn append_pair(clause: &Clause, pairs: &mut Vec<Pair>) -> Result<(), NoMemory>
    ensures { OnOk result (pairs.new.items ≡ pairs.old.items ++ pair_in clause.now.lits) }
{
    if let [left, right] = clause.lits.as_slice() {
        if !left.positive {
            pairs.push(Pair {
                left: left.var,
                right: right.var,
            })?;
        }
    }
    Ok(())
}

/// Reads the pairs.
pub(crate) fn read_pairs(alloc: Global, clauses: &[Clause]) -> Result<Vec<Pair>, NoMemory>
    ensures { IfOk result (λ pairs. pairs.items ≡ pairs_in (literals clauses.now)) }
{
    let mut pairs = Vec::new(alloc);
    for clause in clauses {
        append_pair(clause, &mut pairs)?;
    }
    Ok(pairs)
}

/// The rows of blocks and the pairs of a formula.
#[derive(Drop)]
pub struct Graph {
    /// Where each block's rows begin, and at last the number of rows.
    pub start: Vec<u32>,
    pub blocks: u32,
    /// The variable of each row.
    pub var: Vec<u32>,
    /// The edge of each row.
    pub edge: Vec<u32>,
    pub pairs: Vec<Pair>,
}
