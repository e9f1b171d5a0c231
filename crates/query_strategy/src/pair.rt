//! Which queries without a plan are pairs: those of two atoms whose attacks are both weak.

ghost use Rattle.std.specs.Prelude.{◌↔◌, IsTrue};
ghost use Rattle.cqa_model.specs.Variables.{whole};
ghost use Rattle.key_closure.specs.Members.{AreSame, seen};
ghost use Rattle.cqa_model.specs.Graph.{IsPair};
ghost use Rattle.query_strategy.specs.Strategies.{HasNoPlan};

use attack_graph::weak_row;
use key_closure::Named;

/// Whether a query whose attacks have a cycle is a pair. Two atoms on a cycle attack each other, so that it is enough to look
/// whether they do so weakly. It takes no memory.
pub(crate) fn is_pair(named: &Named<'_>) -> bool
    requires whole { AreSame (whole named.now.query.now) (seen named.now.query.now named.now.view) }
    requires cycle { HasNoPlan named.now.query.now }
    ensures { IsTrue result ↔ IsPair named.now.query.now }
{
    if named.query.atoms.len() != 2 {
        return false;
    }
    weak_row(named, 0).has(1) && weak_row(named, 1).has(0)
}
