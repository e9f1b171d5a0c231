//! What is known once some atoms of a query are taken, and about how many rows of another one agree with it.

ghost use Rattle.std.specs.Prelude.{◌≡◌, ◌<◌, ◌≤◌, length};
ghost use Rattle.cqa_model.specs.declared.limits.TheConstants.{COLUMN_NUMBERS};

use crate::linking::{Joined, linked_to};
use cqa_model::{ColRef, Cond, Op, Query, Variables};
use key_closure::{AtomSet, Named, VarSet};

/// What depends on a query alone, and the rows of its tables.
#[derive(Clone, Copy)]
pub(crate) struct Facts<'a> {
    /// The rows of each atom's table, none where it is missing.
    sizes: &'a [u32],

    /// The variables that are tested to be equal to a literal.
    literals: VarSet,

    /// The variables of two columns or more.
    joined: VarSet,

    /// The atoms with answer columns.
    pub answered: AtomSet,

    /// Those, and the atoms that joins link to them.
    pub inside: AtomSet,
}

impl<'a> Facts<'a> {
    /// What depends on a query alone, and these rows of each atom's table.
    pub fn new(query: &Query, variables: &Variables, sizes: &'a [u32]) -> Facts<'a> {
        let answered = answered_atoms(query);
        Facts {
            sizes,
            literals: literals_of(query, variables),
            joined: joined_variables(query, variables),
            answered,
            inside: linked_to(query, &answered),
        }
    }
}

/// What is known of a query once some of its atoms are taken.
#[derive(Drop)]
pub(crate) struct Known<'a> {
    query: &'a Query,
    variables: &'a Variables,
    facts: &'a Facts<'a>,

    /// The variables of the atoms taken.
    taken: VarSet,

    /// The atoms taken, and those that joins link to them.
    reached: AtomSet,
}

/// A value has about four rows in a column that is joined, but not to a whole key.
const BITS_OF_A_VALUE: u32 = 2;

/// About one row in 64 has a literal, in a column that isn't joined.
const BITS_OF_A_LITERAL: u32 = 6;

/// About one row in 16 is below a literal, or above it.
const BITS_OF_A_RANGE: i32 = 4;

impl<'a> Known<'a> {
    /// What is known of a query once these atoms are taken.
    pub(crate) fn new(named: &'a Named<'a>, facts: &'a Facts<'a>, taken: &AtomSet) -> Known<'a>
        ensures { result.query.now ≡ named.now.query.now }
    {
        let query = named.query;
        let variables = named.variables;
        Known {
            query,
            variables,
            facts,
            taken: variables_of(query, variables, taken),
            reached: linked_to(query, taken),
        }
    }

    /// How joins link an atom to those taken.
    pub(crate) fn link(&self, atom: u32) -> Joined
        requires { atom < length self.now.query.now.atoms }
    {
        for col in 0..self.query.atoms.as_slice()[atom as usize].width {
            if self
                .taken
                .has(self.variables.class_of(ColRef { atom, col }))
            {
                return Joined::Straight;
            }
        }
        if self.reached.has(atom) {
            Joined::Through
        } else {
            Joined::Apart
        }
    }

    /// About how many rows of an atom agree with what is known, in bits; less than 0 where there may be none.
    pub(crate) fn row_bits(&self, atom: u32) -> i32
        requires { atom < length self.now.query.now.atoms }
    {
        let mut bits = if self.has_key(atom) {
            0
        } else {
            self.found_bits(atom) as i32
        };
        for cond in self.query.conds.as_slice() {
            if is_range(cond, atom) {
                bits = bits.saturating_sub(BITS_OF_A_RANGE);
            }
        }
        bits
    }

    /// Whether the key of an atom is known.
    fn has_key(&self, atom: u32) -> bool
        requires { atom < length self.now.query.now.atoms }
    {
        for place in self.query.atoms.as_slice()[atom as usize].key.as_slice() {
            if !self.has(self.variables.class_of(ColRef { atom, col: *place })) {
                return false;
            }
        }
        true
    }

    /// About how many rows of an atom have the values that are known, in bits.
    fn found_bits(&self, atom: u32) -> u32
        requires { atom < length self.now.query.now.atoms }
        ensures { result ≤ 32 }
    {
        let mut counted = VarSet::new();
        let mut bits = self.table_bits(atom);
        for col in 0..self.query.atoms.as_slice()[atom as usize].width {
            let class = self.variables.class_of(ColRef { atom, col });
            if self.has(class) && !counted.has(class) {
                counted.insert_if(class, true);
                bits = bits.saturating_sub(self.value_bits(atom, class));
            }
        }
        bits
    }

    /// About how many values a variable has in an atom, in bits: as many as the smallest table has rows of which it is
    /// the whole key.
    fn value_bits(&self, atom: u32, class: u8) -> u32
        requires { class < COLUMN_NUMBERS }
    {
        match self.least_with_key(class) {
            Some(bits) => bits,
            None if self.facts.joined.has(class) => self
                .table_bits(atom)
                .saturating_sub(BITS_OF_A_VALUE),
            None => BITS_OF_A_LITERAL,
        }
    }

    /// The rows of the smallest table whose whole key is a variable, in bits.
    fn least_with_key(&self, class: u8) -> Option<u32> {
        let mut least = None;
        for atom in 0..self.query.atoms.len() as u32 {
            if self.is_key(class, atom) {
                let bits = self.table_bits(atom);
                least = match least {
                    Some(fewer) if fewer < bits => least,
                    _ => Some(bits),
                };
            }
        }
        least
    }

    /// Whether a variable is the whole key of an atom.
    fn is_key(&self, class: u8, atom: u32) -> bool
        requires { atom < length self.now.query.now.atoms }
    {
        match self.query.atoms.as_slice()[atom as usize].key.as_slice() {
            [col] => self.variables.class_of(ColRef { atom, col: *col }) == class,
            _ => false,
        }
    }

    /// The rows of an atom's table, in bits.
    fn table_bits(&self, atom: u32) -> u32
        ensures { result ≤ 32 }
    {
        match self.facts.sizes.get(atom as usize) {
            Some(rows) => u32::BITS - rows.leading_zeros(),
            None => 0,
        }
    }

    /// Whether a variable has a value.
    fn has(&self, class: u8) -> bool
        requires { class < COLUMN_NUMBERS }
    {
        self.taken.has(class) || self.facts.literals.has(class)
    }
}

/// The atoms with answer columns.
fn answered_atoms(query: &Query) -> AtomSet {
    let mut atoms = AtomSet::new();
    for column in query.answer.as_slice() {
        atoms.insert_if(column.atom, true);
    }
    atoms
}

/// The variables of some atoms' columns.
fn variables_of(query: &Query, variables: &Variables, atoms: &AtomSet) -> VarSet {
    let mut set = VarSet::new();
    for atom in 0..query.atoms.len() as u32 {
        for col in 0..query.atoms.as_slice()[atom as usize].width {
            set.insert_if(variables.class_of(ColRef { atom, col }), atoms.has(atom));
        }
    }
    set
}

/// The variables of two columns or more.
fn joined_variables(query: &Query, variables: &Variables) -> VarSet {
    let mut met = VarSet::new();
    let mut joined = VarSet::new();
    for atom in 0..query.atoms.len() as u32 {
        for col in 0..query.atoms.as_slice()[atom as usize].width {
            let class = variables.class_of(ColRef { atom, col });
            joined.insert_if(class, met.has(class));
            met.insert_if(class, true);
        }
    }
    joined
}

/// The variables that are tested to be equal to a literal.
fn literals_of(query: &Query, variables: &Variables) -> VarSet {
    let mut set = VarSet::new();
    for cond in query.conds.as_slice() {
        if let Cond::Test { col, op, .. } = cond {
            set.insert_if(variables.class_of(*col), matches!(*op, Op::Eq));
        }
    }
    set
}

/// Whether a condition says that a column of an atom is below a literal, or above it.
fn is_range(cond: &Cond, atom: u32) -> bool {
    match cond {
        Cond::Test { col, op, .. } => {
            col.atom == atom && matches!(*op, Op::Lt | Op::Le | Op::Gt | Op::Ge)
        }
        Cond::Join { .. } => false,
    }
}
