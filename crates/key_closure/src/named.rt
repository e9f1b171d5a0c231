//! A view of a query whose variables have their names: its atoms' variables, and closures under their dependencies.

ghost use Rattle.cqa_model.specs.Naming.{AreVariables};

use crate::{AtomSet, VarSet, View};
use cqa_model::{ColRef, Query, Variables};

/// A view of a query, and the names of the query's variables. A caller with many sets to find names the variables once.
#[derive(Clone, Copy)]
pub struct Named<'q> {
    pub query: &'q Query,
    pub variables: &'q Variables,
    pub view: View,
    pub ghost are: { ∥ AreVariables query.now variables.now ∥₁ },
}

impl Named<'_> {
    ghost use Rattle.std.specs.Prelude.{ℕ, ◌<◌, ◌↔◌, IsTrue, MatchOption, length};
    ghost use Rattle.cqa_model.specs.declared.limits.TheConstants.{COLUMN_NUMBERS};
    ghost use Rattle.cqa_model.specs.Query.{atom_at, atom_key};
    ghost use Rattle.cqa_model.specs.Variables.{IsKeyVar, IsVar, after as view_after};
    ghost use Rattle.cqa_model.specs.Closures.{InClosure};
    ghost use Rattle.key_closure.specs.Sets.{Has, HasAtom};
    ghost use Rattle.key_closure.specs.Members.{
      AreSame,
      IsAmong,
      IsFreeClass,
      IsIn,
      IsKeyClass,
      IsLeft,
      IsProper,
      IsReady,
      IsSetOf,
      IsVarClass,
      seen,
    };

    /// key(F): the variables of an atom's key columns that are neither constants nor fixed.
    pub fn key_set(&self, atom: u32) -> VarSet
        requires { atom < length self.now.query.now.atoms }
        ensures is { IsSetOf self.now.query.now result (IsKeyVar self.now.query.now (seen self.now.query.now self.now.view) atom) }
        ensures proper { IsProper self.now.query.now result }
    {
        self.key_classes(atom)
    }

    /// vars(F): the variables of an atom's columns that are neither constants nor fixed.
    pub fn var_set(&self, atom: u32) -> VarSet
        requires { atom < length self.now.query.now.atoms }
        ensures is { IsSetOf self.now.query.now result (IsVar self.now.query.now (seen self.now.query.now self.now.view) atom) }
        ensures proper { IsProper self.now.query.now result }
    {
        self.var_classes(atom)
    }

    /// The view once an atom is taken out and its variables are fixed.
    pub fn after(&self, atom: u32) -> View
        requires { atom < length self.now.query.now.atoms }
        ensures is { AreSame (view_after self.now.query.now (seen self.now.query.now self.now.view) atom) (seen self.now.query.now result) }
        ensures proper { IsProper self.now.query.now self.now.view.fixed → IsProper self.now.query.now result.fixed }
    {
        let mut gone = self.view.gone;
        gone.insert_if(atom, true);
        let vars = self.var_set(atom);
        View {
            gone,
            fixed: self.view.fixed.union(&vars),
        }
    }

    /// The atoms of the view.
    pub fn left(&self) -> AtomSet
        ensures { (K : ℕ) → HasAtom result K ↔ IsLeft self.now.query.now self.now.view K }
    {
        let mut atoms = AtomSet::new();
        for atom in 0..self.query.atoms.len() as u32 {
            atoms.insert_if(atom, !self.view.gone.has(atom));
        }
        atoms
    }

    /// The closure of a set under the dependencies key(K) → vars(K) of these of the query's atoms K.
    pub fn closure(&self, start: &VarSet, atoms: &AtomSet) -> VarSet
        ensures is { IsSetOf self.now.query.now result (InClosure self.now.query.now (seen self.now.query.now self.now.view) (IsAmong self.now.query.now atoms.now) (IsIn self.now.query.now start.now)) }
        ensures proper { IsProper self.now.query.now start.now → IsProper self.now.query.now result }
    {
        let mut set = *start;
        let mut waiting = *atoms;
        'grow: while let Some(atom) = self.first_ready(&set, &waiting) {
            waiting.remove(atom);
            let vars = self.var_set(atom);
            set = set.union(&vars);
        }
        set
    }

    /// Are all of key(F) in the set?
    pub fn is_ready(&self, set: &VarSet, atom: u32) -> bool
        requires { atom < length self.now.query.now.atoms }
        ensures { IsTrue result ↔ IsReady self.now.query.now self.now.view set.now atom }
    {
        let keys = self.key_set(atom);
        keys.is_within(set)
    }

    /// The first of the atoms all of whose key is in the set.
    fn first_ready(&self, set: &VarSet, waiting: &AtomSet) -> Option<u32>
        ensures { MatchOption result ((K : ℕ) → IsAmong self.now.query.now waiting.now K → IsReady self.now.query.now self.now.view set.now K → ⊥)
            (λ K. IsAmong self.now.query.now waiting.now K × IsReady self.now.query.now self.now.view set.now K) }
    {
        for atom in 0..self.query.atoms.len() as u32 {
            if waiting.has(atom) && self.is_ready(set, atom) {
                return Some(atom);
            }
        }
        None
    }

    /// The classes of an atom's columns that are neither constants nor fixed.
    fn var_classes(&self, atom: u32) -> VarSet
        requires { atom < length self.now.query.now.atoms }
        ensures { (k : ℕ) → Has result k ↔ IsVarClass self.now.variables.now self.now.view atom (atom_at self.now.query.now atom).width k }
    {
        let mut set = VarSet::new();
        for col in 0..self.query.atoms.as_slice()[atom as usize].width {
            let class = self.variables.class_of(ColRef { atom, col });
            set.insert_if(class, self.is_free(class));
        }
        set
    }

    /// The classes of an atom's key columns that are neither constants nor fixed.
    fn key_classes(&self, atom: u32) -> VarSet
        requires { atom < length self.now.query.now.atoms }
        ensures { (k : ℕ) → Has result k ↔ IsKeyClass self.now.variables.now self.now.view atom (atom_key self.now.query.now atom) (length (atom_key self.now.query.now atom)) k }
    {
        let mut set = VarSet::new();
        let key = self.query.atoms.as_slice()[atom as usize].key.as_slice();
        for place in key {
            let class = self.variables.class_of(ColRef { atom, col: *place });
            set.insert_if(class, self.is_free(class));
        }
        set
    }

    /// Is the class neither a constant's nor fixed?
    fn is_free(&self, class: u8) -> bool
        requires { class < COLUMN_NUMBERS }
        ensures { IsTrue result ↔ IsFreeClass self.now.variables.now self.now.view class }
    {
        !self.variables.is_constant(class) && !self.view.fixed.has(class)
    }
}
