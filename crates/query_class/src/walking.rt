//! Where attacks lead, one after the other.

ghost use Rattle.std.specs.Prelude.{ℕ, ◌<◌, ◌↔◌};
ghost use Rattle.cqa_model.specs.declared.limits.TheConstants.{MOST_ATOMS};
ghost use Rattle.key_closure.specs.Sets.{HasAtom};
ghost use Rattle.query_class.specs.Cycles.{Reaches};

use attack_graph::Attacks;
use key_closure::AtomSet;

/// The atoms to which attacks lead from an atom, in one step or more.
pub(crate) fn reach(graph: &Attacks, from: u32) -> AtomSet
    requires { from < MOST_ATOMS }
    ensures { (G : ℕ) → HasAtom result G ↔ Reaches graph.now from G }
{
    let mut set = graph.attacked_by(from);
    let mut waiting = AtomSet::full();
    'walk: while let Some(atom) = set.first_shared(&waiting) {
        waiting.remove(atom);
        let more = graph.attacked_by(atom);
        set = set.union(&more);
    }
    set
}
