//! Refuting the formula of a certain row: the rows that were forced tell which variables are false, until a block has none left.
//! A step is added for each variable that is found to be false, and one for each block that had some before it was forced.

ghost use Rattle.std.specs.Prelude.{◌≡◌, ◌+◌, ◌++◌, ◌∷◌, ◌<◌, ◌≤◌, ◌↔◌, ℕ, [], Contains, IfOk, IsTrue, None, OnOk, Some, length, pos, slice_index};
ghost use Rattle.cnf_form.specs.declared.log.Step.TheVariants.{Add};
ghost use Rattle.cnf_form.specs.Logs.{Refutes, AreConsecutive};
ghost use Rattle.weak_pairs.specs.Peeling.{AreBlocked, IsBlockNumber, IsForced};
ghost use Rattle.pair_refutation.specs.Graph.{AreAdjacent};
ghost use Rattle.pair_refutation.specs.Formulas.{IsPairFormula, IsReadTo, IsUnsatisfiable};
ghost use Rattle.pair_refutation.specs.Refuting.{
  AreBlocksOf,
  AreChains,
  AreHintsOf,
  AreMarked,
  IsChainedTo,
  IsLeftOf,
  IsLost,
  IsMet,
  IsSoFar,
  Keeps,
  MeetsAlike,
  StayLost,
  left_literals,
  lost_hints,
  option_at,
};

use crate::chains::{Chains, before, chain_pairs, has_pair, other};
use crate::{Graph, outcome, read};
use cnf_form::{Clause, Cnf, Lit, Log, Step};
use cqa_value::{Items, NoMemory};
use std::alloc::Global;
use weak_pairs::Outcome;

/// Adds a clause under the next id, which is answered.
fn add(cnf: &Cnf, steps: &mut Vec<Step>, lits: Items<Lit>, hints: Vec<i64>) -> Result<u64, NoMemory>
    ensures id { IfOk result (λ id. id ≡ length cnf.now.clauses + length steps.old.items + 1) }
    ensures steps { IfOk result (λ id. steps.new.items ≡ steps.old.items ++ Add id (record { lits = lits }) hints.items ∷ []) }
{
    let id = cnf.clauses.as_slice().len() as u64 + steps.len() as u64 + 1;
    steps.push(Step::Add {
        id,
        clause: Clause { lits },
        hints: Items::from_vec(hints),
    })?;
    Ok(id)
}

/// Appends an id as a hint. So many clauses that their ids don't fit need more memory than there is.
fn push_hint(hints: &mut Vec<i64>, id: u64) -> Result<(), NoMemory>
    ensures { OnOk result (hints.new.items ≡ hints.old.items ++ pos id ∷ []) }
{
    if id > i64::MAX as u64 {
        return Err(NoMemory);
    }
    hints.push(id as i64)?;
    Ok(())
}

/// The ids of the pairs of a variable, and then another id.
fn pair_hints(
    alloc: Global,
    graph: &Graph,
    chains: &Chains,
    x: u32,
    last: u64,
) -> Result<Vec<i64>, NoMemory>
    requires chains { AreChains graph.now.pairs.items chains.now }
    requires there { x < length chains.now.last.items }
    ensures { IfOk result (λ hints. AreHintsOf graph.now x last hints.items) }
{
    let mut hints = Vec::new(alloc);
    let mut at = chains.last[x as usize];
    'chain: while let Some(place) = at {
        push_hint(&mut hints, graph.blocks as u64 + place as u64 + 1)?;
        at = before(&graph.pairs, chains, place, x);
    }
    push_hint(&mut hints, last)?;
    Ok(hints)
}

/// Whether it isn't known that a variable is false.
fn is_open(lost: &[Option<u64>], x: u32) -> bool
    requires { x < length lost.now }
    ensures { IsTrue result ↔ (option_at lost.now x ≡ None) }
{
    lost[x as usize].is_none()
}

/// The literals of variables that aren't known to be false.
fn left_of(alloc: Global, vars: &[u32], lost: &[Option<u64>]) -> Result<Items<Lit>, NoMemory>
    requires { (x : ℕ) → Contains vars.now x → x < length lost.now }
    ensures { IfOk result (λ lits. lits ≡ left_literals lost.now vars.now) }
{
    let mut lits = Items::new(alloc);
    for x in vars {
        if is_open(lost, *x) {
            lits.push(Lit {
                var: *x,
                positive: true,
            })?;
        }
    }
    Ok(lits)
}

/// The ids by which variables are known to be false.
fn lost_hints(alloc: Global, vars: &[u32], lost: &[Option<u64>]) -> Result<Vec<i64>, NoMemory>
    requires { (x : ℕ) → Contains vars.now x → x < length lost.now }
    ensures { IfOk result (λ hints. hints.items ≡ lost_hints lost.now vars.now) }
{
    let mut hints = Vec::new(alloc);
    for x in vars {
        if let Some(id) = lost[*x as usize] {
            push_hint(&mut hints, id)?;
        }
    }
    Ok(hints)
}

/// The id of a clause of what is left of a block: the block's own, where all is left, and else one that is added.
fn shorten(
    alloc: Global,
    cnf: &Cnf,
    graph: &Graph,
    steps: &mut Vec<Step>,
    lost: &[Option<u64>],
    v: u32,
) -> Result<u64, NoMemory>
    requires read { IsReadTo cnf.now graph.now }
    requires so_far { IsSoFar cnf.now steps.old.items lost.now }
    requires block { IsBlockNumber graph.now.start.items v }
    ensures so_far { OnOk result (IsSoFar cnf.now steps.new.items lost.now) }
    ensures left { IfOk result (IsLeftOf cnf.now steps.new.items graph.now lost.now v) }
{
    let first = graph.start[v as usize];
    let end = graph.start[v as usize + 1];
    let own = v as u64 + 1;
    let vars = &graph.var[first as usize..end as usize];
    let mut hints = lost_hints(alloc, vars, lost)?;
    if hints.is_empty() {
        return Ok(own);
    }
    push_hint(&mut hints, own)?;
    let lits = left_of(alloc, vars, lost)?;
    let id = add(cnf, steps, lits, hints)?;
    Ok(id)
}

/// Adds that a variable is false, if that isn't known: it meets all that are in the clause of an id.
fn lose(
    alloc: Global,
    cnf: &Cnf,
    graph: &Graph,
    chains: &Chains,
    steps: &mut Vec<Step>,
    lost: &mut [Option<u64>],
    x: u32,
    last: u64,
) -> Result<(), NoMemory>
    requires chained { IsChainedTo cnf.now graph.now chains.now }
    requires so_far { IsSoFar cnf.now steps.old.items lost.old }
    requires there { x ≤ cnf.now.vars }
    requires met { IsMet cnf.now steps.old.items graph.now.pairs.items x last }
    ensures so_far { OnOk result (IsSoFar cnf.now steps.new.items lost.new) }
    ensures lost { OnOk result (IsLost lost.new x) }
    ensures stay { OnOk result (StayLost lost.old lost.new) }
    ensures keeps { OnOk result (Keeps cnf.now steps.old.items steps.new.items) }
{
    if lost[x as usize].is_some() {
        return Ok(());
    }
    let hints = pair_hints(alloc, graph, chains, x, last)?;
    let mut lits = Items::new(alloc);
    lits.push(Lit {
        var: x,
        positive: false,
    })?;
    let id = add(cnf, steps, lits, hints)?;
    lost[x as usize] = Some(id);
    Ok(())
}

/// Adds that all variables which meet one are false.
fn lose_all(
    alloc: Global,
    cnf: &Cnf,
    graph: &Graph,
    chains: &Chains,
    steps: &mut Vec<Step>,
    lost: &mut [Option<u64>],
    x: u32,
    last: u64,
) -> Result<(), NoMemory>
    requires chained { IsChainedTo cnf.now graph.now chains.now }
    requires so_far { IsSoFar cnf.now steps.old.items lost.old }
    requires there { x ≤ cnf.now.vars }
    requires alike { MeetsAlike cnf.now steps.old.items graph.now.pairs.items x last }
    ensures so_far { OnOk result (IsSoFar cnf.now steps.new.items lost.new) }
    ensures lost { OnOk result ((b : ℕ) → AreAdjacent graph.now.pairs.items x b → IsLost lost.new b) }
    ensures stay { OnOk result (StayLost lost.old lost.new) }
{
    let mut at = chains.last[x as usize];
    'chain: while let Some(place) = at {
        let met = other(graph.pairs[place], x);
        lose(alloc, cnf, graph, chains, steps, lost, met, last)?;
        at = before(&graph.pairs, chains, place, x);
    }
    Ok(())
}

/// Adds what follows from a forced row: all that meet its variable are false.
fn follow(
    alloc: Global,
    cnf: &Cnf,
    graph: &Graph,
    chains: &Chains,
    block_of: &[u32],
    order: &[u32],
    place: usize,
    steps: &mut Vec<Step>,
    lost: &mut [Option<u64>],
) -> Result<(), NoMemory>
    requires chained { IsChainedTo cnf.now graph.now chains.now }
    requires blocks { AreBlocksOf graph.now.start.items (slice_index graph.now.start.items graph.now.blocks) block_of.now }
    requires place { place < length order.now }
    requires forced { (q : ℕ) → q < length order.now → IsForced graph.now.start.items graph.now.edge.items order.now q }
    requires so_far { IsSoFar cnf.now steps.old.items lost.old }
    requires marked { AreMarked graph.now order.now lost.old place }
    ensures so_far { OnOk result (IsSoFar cnf.now steps.new.items lost.new) }
    ensures marked { OnOk result (AreMarked graph.now order.now lost.new (place + 1)) }
{
    let row = order[place];
    let x = graph.var[row as usize];
    if !has_pair(chains, x) {
        return Ok(());
    }
    let last = shorten(alloc, cnf, graph, steps, lost, block_of[row as usize])?;
    lose_all(alloc, cnf, graph, chains, steps, lost, x, last)
}

/// The block of each row.
fn blocks_of(alloc: Global, start: &[u32], blocks: u32) -> Result<Vec<u32>, NoMemory>
    requires blocks { blocks + 1 ≡ length start.now }
    requires first { slice_index start.now 0 ≡ 0 }
    requires rising { (u v : ℕ) → u < v → v < length start.now → slice_index start.now u < slice_index start.now v }
    ensures { IfOk result (λ block_of. AreBlocksOf start.now (slice_index start.now blocks) block_of.items) }
{
    let mut block_of = Vec::new(alloc);
    for v in 0..blocks {
        for i in start[v as usize]..start[v as usize + 1] {
            block_of.push(v)?;
        }
    }
    Ok(block_of)
}

/// Adds what follows from each forced row, and at last the empty clause.
fn follow_all(
    alloc: Global,
    cnf: &Cnf,
    graph: &Graph,
    chains: &Chains,
    block_of: &[u32],
    order: &[u32],
    root: u32,
    steps: &mut Vec<Step>,
    lost: &mut [Option<u64>],
) -> Result<(), NoMemory>
    requires chained { IsChainedTo cnf.now graph.now chains.now }
    requires blocks { AreBlocksOf graph.now.start.items (slice_index graph.now.start.items graph.now.blocks) block_of.now }
    requires blocked { AreBlocked graph.now.start.items graph.now.edge.items order.now root }
    requires so_far { IsSoFar cnf.now steps.old.items lost.old }
    ensures refutes { OnOk result (Refutes cnf.now steps.new.items) }
    ensures ids { OnOk result (AreConsecutive (length cnf.now.clauses) steps.new.items) }
{
    for place in 0..order.len() {
        follow(
            alloc, cnf, graph, chains, block_of, order, place, steps, lost,
        )?;
    }
    shorten(alloc, cnf, graph, steps, lost, root)?;
    Ok(())
}

/// The log of rows that were forced, and of a block that has none left.
fn by_order(
    alloc: Global,
    cnf: &Cnf,
    graph: &Graph,
    order: &[u32],
    root: u32,
) -> Result<Log, NoMemory>
    requires read { IsReadTo cnf.now graph.now }
    requires blocked { AreBlocked graph.now.start.items graph.now.edge.items order.now root }
    ensures refutes { IfOk result (λ log. Refutes cnf.now log.steps) }
    ensures ids { IfOk result (λ log. AreConsecutive (length cnf.now.clauses) log.steps) }
{
    let chains = chain_pairs(alloc, &graph.pairs, cnf.vars)?;
    let block_of = blocks_of(alloc, &graph.start, graph.blocks)?;
    let mut lost = vec![in alloc; None; cnf.vars as usize + 1]?;
    let mut steps = Vec::new(alloc);
    let added = follow_all(
        alloc, cnf, graph, &chains, &block_of, order, root, &mut steps, &mut lost,
    );
    drop(chains);
    drop(block_of);
    drop(lost);
    match added {
        Ok(()) => Ok(Log {
            steps: Items::from_vec(steps),
        }),
        Err(fault) => {
            drop(steps);
            Err(fault)
        }
    }
}

/// The refutation of a formula by its graph.
fn by_graph(alloc: Global, cnf: &Cnf, graph: &Graph) -> Result<Log, NoMemory>
    requires read { IsReadTo cnf.now graph.now }
    requires none { IsUnsatisfiable cnf.now }
    ensures refutes { IfOk result (λ log. Refutes cnf.now log.steps) }
    ensures ids { IfOk result (λ log. AreConsecutive (length cnf.now.clauses) log.steps) }
{
    match outcome(alloc, cnf, graph)? {
        Outcome::Chosen(_) => unreachable!(),
        Outcome::Blocked(order, root) => by_order(alloc, cnf, graph, &order, root),
    }
}

/// A refutation of the formula of a certain row of a pair: additions under the ids that follow the formula's.
/// It is made without a search, in a time linear in the formula.
///
/// # Errors
///
/// `NoMemory` where memory is refused.
pub fn refute(alloc: Global, cnf: &Cnf) -> Result<Log, NoMemory>
    requires formula { IsPairFormula cnf.now }
    requires none { IsUnsatisfiable cnf.now }
    ensures refutes { IfOk result (λ log. Refutes cnf.now log.steps) }
    ensures ids { IfOk result (λ log. AreConsecutive (length cnf.now.clauses) log.steps) }
{
    let graph = read(alloc, cnf)?;
    let log = by_graph(alloc, cnf, &graph);
    drop(graph);
    log
}
