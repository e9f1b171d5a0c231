//! The class of a graph of attacks: whether there is a cycle, and whether one has a strong attack.

ghost use Rattle.std.specs.Prelude.{ℕ, ◌<◌, ◌↔◌, IsTrue};
ghost use Rattle.cqa_model.specs.declared.limits.TheConstants.{MOST_ATOMS};
ghost use Rattle.cqa_model.specs.declared.query.Query.{Query};
ghost use Rattle.cqa_model.specs.Variables.{whole};
ghost use Rattle.cqa_model.specs.Graph.{IsCyclic, IsStronglyCyclic};
ghost use Rattle.key_closure.specs.declared.view.View.{View};
ghost use Rattle.key_closure.specs.Members.{seen};
ghost use Rattle.attack_graph.specs.Attacking.{AreAttacks, HasAttack, HasWeakAttack};
ghost use Rattle.query_class.specs.Cycles.{
  IsClass,
  IsClassOf,
  IsStrong,
  Reaches,
};

use crate::walking::reach;
use attack_graph::Attacks;
use complexity_class::Class;
use cqa_model::MOST_ATOMS;

/// The class of a graph of attacks, and so of each query, and of each view of one, whose attacks they are.
pub fn class_of(graph: &Attacks) -> Class
    ensures graph { IsClassOf graph.now result }
    ensures query { (q : Query) → AreAttacks q (whole q) graph.now → IsClass q (whole q) result }
    ensures view { (q : Query) (view : View) → AreAttacks q (seen q view) graph.now → IsClass q (seen q view) result }
{
    if has_strong_cycle(graph) {
        return Class::CoNp;
    }
    if has_cycle(graph) {
        Class::Polynomial
    } else {
        Class::FirstOrder
    }
}

/// Is there a cycle?
fn has_cycle(graph: &Attacks) -> bool
    ensures { IsTrue result ↔ IsCyclic (HasAttack graph.now) }
{
    for atom in 0..MOST_ATOMS {
        if reach(graph, atom).has(atom) {
            return true;
        }
    }
    false
}

/// Is there a cycle with a strong attack?
fn has_strong_cycle(graph: &Attacks) -> bool
    ensures { IsTrue result ↔ IsStronglyCyclic (HasAttack graph.now) (HasWeakAttack graph.now) }
{
    for atom in 0..MOST_ATOMS {
        if is_on_strong_cycle(graph, atom) {
            return true;
        }
    }
    false
}

/// Does an atom that is reached from this one attack it strongly?
fn is_on_strong_cycle(graph: &Attacks, to: u32) -> bool
    requires { to < MOST_ATOMS }
    ensures { IsTrue result ↔ ((F : ℕ) × IsStrong graph.now F to × Reaches graph.now to F) }
{
    let reached = reach(graph, to);
    for atom in 0..MOST_ATOMS {
        if reached.has(atom) && is_strong(graph, atom, to) {
            return true;
        }
    }
    false
}

/// Is there a strong attack of an atom on another?
fn is_strong(graph: &Attacks, from: u32, to: u32) -> bool
    requires from { from < MOST_ATOMS }
    requires to { to < MOST_ATOMS }
    ensures { IsTrue result ↔ IsStrong graph.now from to }
{
    graph.has(from, to) && !graph.weak(from, to)
}
