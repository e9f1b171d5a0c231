//! A query with the variables of its columns.

ghost use Rattle.std.specs.Prelude.{◌≡◌, ◌<◌, IfOk, length};
ghost use Rattle.cqa_model.specs.Query.{atom_at, atom_key};
ghost use Rattle.cqa_model.specs.Naming.{AreVariables};
ghost use Rattle.sql_steps.specs.Shapes.{AreNamed};
ghost use Rattle.sql_steps.specs.Variables.{answer_variables, key_variables, variables_of};
ghost use Rattle.sql_steps.specs.Steps.{columns_of, others_of};

use crate::lists::{numbers, without};
use cqa_model::{ColRef, Query, Variables, variables};
use cqa_value::{Items, NoMemory};
use std::alloc::Global;

/// A query, and for each of its atoms the variables of its columns.
#[derive(Drop)]
pub struct Shape<'q> {
    pub query: &'q Query,
    pub lists: Items<Items<u32>>,
    pub ghost named: { AreNamed query.now lists },
}

/// The query with its variables.
///
/// # Errors
///
/// `NoMemory` where memory is refused.
pub fn shape_of(alloc: Global, query: &Query) -> Result<Shape<'_>, NoMemory>
    ensures { IfOk result (λ shape. shape.query.now ≡ query.now) }
{
    let variables = variables(query);
    let mut lists = Items::new(alloc);
    for atom in 0..query.atoms.len() as u32 {
        lists.push(variables_of(alloc, query, &variables, atom)?)?;
    }
    Ok(Shape { query, lists })
}

/// The variables of an atom's columns.
fn variables_of(
    alloc: Global,
    query: &Query,
    variables: &Variables,
    atom: u32,
) -> Result<Items<u32>, NoMemory>
    requires variables { AreVariables query.now variables.now }
    requires atom { atom < length query.now.atoms }
    ensures { IfOk result (λ list. list ≡ variables_of query.now atom) }
{
    let mut list = Items::new(alloc);
    for col in 0..query.atoms.as_slice()[atom as usize].width {
        list.push(u32::from(variables.class_of(ColRef { atom, col })))?;
    }
    Ok(list)
}

impl Shape<'_> {
    /// The variables of an atom's columns.
    pub fn of(&self, atom: u32) -> &[u32]
        requires { atom < length self.now.query.now.atoms }
        ensures { result.now ≡ variables_of self.now.query.now atom }
    {
        self.lists.as_slice()[atom as usize].as_slice()
    }

    /// Whether an atom's table is strict.
    pub fn is_strict(&self, atom: u32) -> bool
        requires { atom < length self.now.query.now.atoms }
        ensures { result ≡ (atom_at self.now.query.now atom).strict }
    {
        self.query.atoms.as_slice()[atom as usize].strict
    }

    /// The columns of an atom's key.
    pub fn key(&self, atom: u32) -> &[u32]
        requires { atom < length self.now.query.now.atoms }
        ensures { result.now ≡ atom_key self.now.query.now atom }
    {
        self.query.atoms.as_slice()[atom as usize].key.as_slice()
    }

    /// The variables of an atom's key.
    ///
    /// # Errors
    ///
    /// `NoMemory` where memory is refused.
    pub fn key_variables(&self, alloc: Global, atom: u32) -> Result<Items<u32>, NoMemory>
        requires { atom < length self.now.query.now.atoms }
        ensures { IfOk result (λ list. list ≡ key_variables self.now.query.now atom) }
    {
        let vs = self.of(atom);
        let mut list = Items::new(alloc);
        for column in self.key(atom) {
            list.push(vs[*column as usize])?;
        }
        Ok(list)
    }

    /// The variables of the answer columns.
    ///
    /// # Errors
    ///
    /// `NoMemory` where memory is refused.
    pub fn answer_variables(&self, alloc: Global) -> Result<Items<u32>, NoMemory>
        ensures { IfOk result (λ list. list ≡ answer_variables self.now.query.now) }
    {
        let mut list = Items::new(alloc);
        for column in self.query.answer.as_slice() {
            list.push(self.of(column.atom)[column.col as usize])?;
        }
        Ok(list)
    }

    /// An atom's columns.
    pub(crate) fn columns(&self, alloc: Global, atom: u32) -> Result<Items<u32>, NoMemory>
        requires { atom < length self.now.query.now.atoms }
        ensures { IfOk result (λ list. list ≡ columns_of self.now.query.now atom) }
    {
        numbers(alloc, self.query.atoms.as_slice()[atom as usize].width)
    }

    /// An atom's columns outside its key.
    pub(crate) fn others(&self, alloc: Global, atom: u32) -> Result<Items<u32>, NoMemory>
        requires { atom < length self.now.query.now.atoms }
        ensures { IfOk result (λ list. list ≡ others_of self.now.query.now atom) }
    {
        let columns = self.columns(alloc, atom)?;
        without(alloc, columns.as_slice(), self.key(atom))
    }
}
