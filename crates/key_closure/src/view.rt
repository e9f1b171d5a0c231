//! What is left of a query once atoms are taken out of it.

use crate::{AtomSet, Named, VarSet};
use cqa_model::{Query, variables};

/// The rest of a query: the atoms that were taken out of it, and the variables that count as constants besides.
#[derive(Clone, Copy)]
pub struct View {
    pub gone: AtomSet,
    pub fixed: VarSet,
}

impl View {
    ghost use Rattle.std.specs.Prelude.{◌<◌, length};
    ghost use Rattle.cqa_model.specs.Variables.{after, whole};
    ghost use Rattle.key_closure.specs.Members.{AreSame, IsProper, seen};

    /// The whole query.
    pub fn whole(query: &Query) -> View
        ensures is { AreSame (whole query.now) (seen query.now result) }
        ensures proper { IsProper query.now result.fixed }
    {
        View {
            gone: AtomSet::new(),
            fixed: VarSet::new(),
        }
    }

    /// The view once an atom is taken out and its variables are fixed.
    pub fn after(&self, query: &Query, atom: u32) -> View
        requires { atom < length query.now.atoms }
        ensures is { AreSame (after query.now (seen query.now self.now) atom) (seen query.now result) }
        ensures proper { IsProper query.now self.now.fixed → IsProper query.now result.fixed }
    {
        let variables = variables(query);
        let named = Named {
            query,
            variables: &variables,
            view: *self,
        };
        named.after(atom)
    }
}
