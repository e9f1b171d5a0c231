//! What is known of variables, and the comparisons by which a row fits it.

ghost use Rattle.std.specs.Prelude.{◌≡◌, ◌++◌, ◌<◌, IfOk, OnOk, All, length};
ghost use Rattle.cqa_model.specs.declared.query.Cond.{Cond as SpecCond};
ghost use Rattle.cqa_model.specs.Query.{atom_at};
ghost use Rattle.std.specs.List.{flat_map};
ghost use Rattle.sql_steps.specs.Variables.{all_below};
ghost use Rattle.sql_steps.specs.Steps.{cell_of, cells_of, find, fit_on, held, see, see_all, test_at};

use crate::lists::has;
use crate::shape::Shape;
use cqa_model::Cond;
use cqa_value::{Items, NoMemory};
use sql_text::{Cell, Cmp};
use std::alloc::Global;

/// A variable, and a cell that has its value.
#[derive(Clone, Copy)]
pub struct Known {
    pub variable: u32,
    pub cell: Cell,
}

/// What is known, and the comparisons so far.
#[derive(Drop)]
pub struct Fitting {
    pub known: Items<Known>,
    pub all: Items<Cmp>,
}

/// What is known of a source that has these variables as its columns.
pub(crate) fn held(alloc: Global, place: usize, vs: &[u32]) -> Result<Items<Known>, NoMemory>
    ensures { IfOk result (λ known. known ≡ held place 0 vs.now) }
{
    let mut known = Items::new(alloc);
    for column in 0..vs.len() {
        let cell = Cell { place, column };
        known.push(Known {
            variable: vs[column],
            cell,
        })?;
    }
    Ok(known)
}

/// The first cell that has the value of a variable.
pub(crate) fn find(known: &[Known], v: u32) -> Option<Cell>
    ensures { result ≡ find known.now v }
{
    for one in known {
        if one.variable == v {
            return Some(one.cell);
        }
    }
    None
}

/// The cell of a variable that is known.
pub fn cell_of(known: &[Known], v: u32) -> Cell
    ensures { result ≡ cell_of known.now v }
{
    match find(known, v) {
        Some(cell) => cell,
        None => Cell {
            place: 0,
            column: 0,
        },
    }
}

/// The cells of variables that are known.
///
/// # Errors
///
/// `NoMemory` where memory is refused.
pub fn cells_of(alloc: Global, known: &[Known], vs: &[u32]) -> Result<Items<Cell>, NoMemory>
    ensures { IfOk result (λ cells. cells ≡ cells_of known.now vs.now) }
{
    let mut cells = Items::new(alloc);
    for v in vs {
        cells.push(cell_of(known, *v))?;
    }
    Ok(cells)
}

impl Fitting {
    /// A cell of a variable is compared with the one that is known, or is known from then on.
    fn see(&mut self, v: u32, cell: Cell) -> Result<(), NoMemory>
        ensures { OnOk result (self.new ≡ see self.old v cell) }
    {
        match find(self.known.as_slice(), v) {
            None => self.known.push(Known { variable: v, cell })?,
            Some(known) => self.all.push(Cmp::Same {
                left: cell,
                right: known,
            })?,
        }
        Ok(())
    }

    /// So are these columns of a source whose variables are given.
    pub(crate) fn see_all(
        &mut self,
        vs: &[u32],
        place: usize,
        columns: &[u32],
    ) -> Result<(), NoMemory>
        requires { All (λ i. i < length vs.now) columns.now }
        ensures { OnOk result (self.new ≡ see_all vs.now place columns.now self.old) }
    {
        for column in columns {
            let cell = Cell {
                place,
                column: *column as usize,
            };
            self.see(vs[*column as usize], cell)?;
        }
        Ok(())
    }

    /// So are all columns of a source whose variables these are.
    pub(crate) fn see_source(&mut self, vs: &[u32], place: usize) -> Result<(), NoMemory>
        ensures { OnOk result (self.new ≡ see_all vs.now place (all_below (length vs.now)) self.old) }
    {
        for column in 0..vs.len() {
            self.see(vs[column], Cell { place, column })?;
        }
        Ok(())
    }

    /// Adds a condition if it tests one of these columns of an atom.
    fn add_test(
        &mut self,
        alloc: Global,
        atom: u32,
        place: usize,
        columns: &[u32],
        cond: &Cond,
    ) -> Result<(), NoMemory>
        ensures known { OnOk result (self.new.known ≡ self.old.known) }
        ensures all { OnOk result (self.new.all ≡ self.old.all ++ test_at atom place columns.now cond.now) }
    {
        if let Cond::Test { col, op, value } = cond {
            if col.atom == atom && has(columns, col.col) {
                let cell = Cell {
                    place,
                    column: col.col as usize,
                };
                let value = value.copy(alloc)?;
                self.all.push(Cmp::Test {
                    cell,
                    op: *op,
                    value,
                })?;
            }
        }
        Ok(())
    }

    /// Adds the tests of these columns of an atom.
    fn add_tests(
        &mut self,
        alloc: Global,
        conds: &[Cond],
        atom: u32,
        place: usize,
        columns: &[u32],
    ) -> Result<(), NoMemory>
        ensures known { OnOk result (self.new.known ≡ self.old.known) }
        ensures all { OnOk result (self.new.all ≡ self.old.all ++ flat_map (λ (k : SpecCond). test_at atom place columns.now k) conds.now) }
    {
        for cond in conds {
            self.add_test(alloc, atom, place, columns, cond)?;
        }
        Ok(())
    }

    /// A row of an atom fits what is known, on these columns.
    pub(crate) fn fit_on(
        &mut self,
        alloc: Global,
        shape: &Shape<'_>,
        atom: u32,
        place: usize,
        columns: &[u32],
    ) -> Result<(), NoMemory>
        requires atom { atom < length shape.now.query.now.atoms }
        requires columns { All (λ i. i < (atom_at shape.now.query.now atom).width) columns.now }
        ensures { OnOk result (self.new ≡ fit_on shape.now.query.now atom place columns.now self.old) }
    {
        self.see_all(shape.of(atom), place, columns)?;
        self.add_tests(alloc, shape.query.conds.as_slice(), atom, place, columns)
    }
}
