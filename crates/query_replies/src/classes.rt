//! The class of a query and the attacks between its atoms.

ghost use Rattle.std.specs.Prelude.{◌≡◌, ◌<◌, ℕ, IfOk, length};
ghost use Rattle.cqa_model.specs.declared.limits.TheConstants.{MOST_ATOMS};
ghost use Rattle.cqa_model.specs.declared.query.Query.{Query as QueryValue};
ghost use Rattle.cqa_model.specs.Variables.{whole};
ghost use Rattle.attack_graph.specs.Attacking.{AreAttacks, HasAttack, HasWeakAttack};
ghost use Rattle.query_replies.specs.AttackLines.{AreAttackLines, IsLineOf};
ghost use Rattle.query_replies.specs.Classes.{IsClassWith};

use attack_graph::{Attacks, attacks};
use cqa_model::{MOST_ATOMS, Query};
use cqa_value::{Items, Name, NoMemory};
use key_closure::View;
use query_class::class_of;
use reply_text::{AttackLine, PartClass};
use std::alloc::Global;

/// The class of a query whose tables have these names, with a line for each attack.
///
/// # Errors
///
/// `NoMemory` where memory is refused.
pub fn class_of_query(alloc: Global, query: &Query, names: &[Name]) -> Result<PartClass, NoMemory>
    requires { length names.now ≡ length query.now.atoms }
    ensures { IfOk result (IsClassWith query.now names.now) }
{
    let graph = attacks(query, &View::whole(query));
    let class = class_of(&graph);
    let lines = attack_lines(alloc, names, &graph)?;
    Ok(PartClass { class, lines })
}

/// A line for each attack, by the attacker and then by the attacked.
fn attack_lines(
    alloc: Global,
    names: &[Name],
    graph: &Attacks,
) -> Result<Items<AttackLine>, NoMemory>
    requires { (F G : ℕ) → HasAttack graph.now F G → (F < length names.now) × (G < length names.now) }
    ensures { IfOk result (λ lines. (q : QueryValue) → AreAttacks q (whole q) graph.now → AreAttackLines q names.now lines) }
{
    let mut lines = Items::new(alloc);
    for pair in 0..MOST_ATOMS * MOST_ATOMS {
        let from = pair / MOST_ATOMS;
        let to = pair % MOST_ATOMS;
        if graph.has(from, to) {
            lines.push(attack_line(alloc, names, graph, from, to)?)?;
        }
    }
    Ok(lines)
}

/// The line of an attack.
fn attack_line(
    alloc: Global,
    names: &[Name],
    graph: &Attacks,
    from: u32,
    to: u32,
) -> Result<AttackLine, NoMemory>
    requires from { from < MOST_ATOMS }
    requires to { to < MOST_ATOMS }
    requires attack { HasAttack graph.now from to }
    requires names { (from < length names.now) × (to < length names.now) }
    ensures { IfOk result (IsLineOf (HasWeakAttack graph.now) names.now (record { from = from; to = to })) }
{
    let attacker = names[from as usize].copy(alloc)?;
    let attacked = names[to as usize].copy(alloc)?;
    Ok(AttackLine {
        from: attacker,
        to: attacked,
        weak: graph.weak(from, to),
    })
}
