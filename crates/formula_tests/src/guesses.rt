//! Formulas of rows in groups: small ones, and random cycles that are made here.

ghost use Rattle.std.specs.Prelude.{◌<◌};

use cdcl::Outcome;
use cnf_form::{Clause, Cnf, Lit, read_formula};
use cqa_value::{Items, NoMemory};
use merged_search::by_groups;
use std::alloc::Global;
use std::test::Fail;

/// What is found of a formula by groups, and how many values are true or how many steps the log has.
fn said(alloc: Global, cnf: &Cnf, budget: u32) -> Result<(&'static str, usize), NoMemory> {
    let found = by_groups(alloc, cnf, budget)?;
    let said = match &found {
        None => ("none", 0),
        Some(Outcome::Sat(values)) => {
            let count = values.as_slice().iter().filter(|value| **value).count();
            ("sat", count)
        }
        Some(Outcome::Unsat(log)) => ("unsat", log.steps.len()),
        Some(Outcome::Spent(_)) => ("spent", 0),
    };
    drop(found);
    Ok(said)
}

fn said_of(alloc: Global, text: &[u8], budget: u32) -> Result<(&'static str, usize), Fail> {
    let (cnf, _) = read_formula(alloc, text)?;
    let said = said(alloc, &cnf, budget);
    drop(cnf);
    Ok(said?)
}

/// Two blocks of two rows, each of which excludes both rows of the other.
const SQUARE: &[u8] = b"p cnf 4 6\n1 2 0\n-1 -3 0\n3 4 0\n-1 -4 0\n-2 -4 0\n-2 -3 0\nlrat\n";

#[test]
fn small_formulas_are_guessed(rt: HostRuntime) -> Result<(), Fail> {
    let cases: [(&[u8], u32, (&str, usize)); 9] = [
        // Two blocks of one row each that meet; and a row that excludes none beside one of them.
        (b"p cnf 2 3\n1 0\n2 0\n-1 -2 0\nlrat\n", 9, ("unsat", 1)),
        (b"p cnf 3 3\n1 3 0\n2 0\n-1 -2 0\nlrat\n", 9, ("sat", 2)),
        // Two rows on each side: a lemma for each row of the block that is false.
        (SQUARE, 9, ("unsat", 3)),
        (SQUARE, 1, ("none", 0)),
        // A pair is missing, or stands twice.
        (
            b"p cnf 4 5\n1 2 0\n-1 -3 0\n3 4 0\n-1 -4 0\n-2 -4 0\nlrat\n",
            9,
            ("none", 0),
        ),
        (
            b"p cnf 2 4\n1 0\n2 0\n-1 -2 0\n-2 -1 0\nlrat\n",
            9,
            ("none", 0),
        ),
        // Rows that are never kept.
        (
            b"p cnf 3 4\n-1 0\n1 2 0\n1 3 0\n-2 -3 0\nlrat\n",
            9,
            ("unsat", 1),
        ),
        (b"p cnf 2 3\n-1 0\n1 2 0\n-2 0\nlrat\n", 9, ("unsat", 1)),
        // A clause of another form.
        (b"p cnf 2 1\n1 -2 0\nlrat\n", 9, ("none", 0)),
    ];
    for (text, budget, want) in cases {
        assert_eq!(rt; said_of(rt.alloc(), text, budget)?, want);
    }
    Ok(())
}

/// The clause by which two rows exclude each other.
fn pair(alloc: Global, one: u32, other: u32) -> Result<Clause, NoMemory> {
    let mut lits = Items::new(alloc);
    lits.push(Lit {
        var: one,
        positive: false,
    })?;
    lits.push(Lit {
        var: other,
        positive: false,
    })?;
    Ok(Clause { lits })
}

/// The next of a sequence of numbers that look drawn.
fn next(draw: &mut u64) -> u64 {
    *draw = draw
        .wrapping_mul(6_364_136_223_846_793_005)
        .wrapping_add(1_442_695_040_888_963_407);
    *draw >> 33
}

/// Random rows of two tables: clauses of their blocks, and the rows of each value.
#[derive(Drop)]
struct Making {
    clauses: Items<Clause>,
    rows: u32,
    values: Vec<(u32, usize, u64)>,
}

impl Making {
    fn add_block(
        &mut self,
        alloc: Global,
        draw: &mut u64,
        side: usize,
        values: u64,
    ) -> Result<(), NoMemory>
        requires { values < 1000 }
    {
        let mut lits = Items::new(alloc);
        for _row in 0..3u64 {
            self.rows = self.rows.saturating_add(1);
            let value = next(draw) % (values + 1);
            lits.push(Lit {
                var: self.rows,
                positive: true,
            })?;
            self.values.push((self.rows, side, value))?;
        }
        self.clauses.push(Clause { lits })
    }

    fn add_pairs(&mut self, alloc: Global) -> Result<(), NoMemory> {
        for one in 0..self.values.len() {
            for other in 0..self.values.len() {
                let (one, side, value) = self.values.get(one).copied().unwrap_or((0, 0, 0));
                let (other, far, same) = self.values.get(other).copied().unwrap_or((0, 0, 0));
                if side == 0 && far == 1 && value == same {
                    self.clauses.push(pair(alloc, one, other)?)?;
                }
            }
        }
        Ok(())
    }

    fn make(&mut self, alloc: Global, seed: u64, values: u64, blocks: u64) -> Result<(), NoMemory>
        requires { values < 1000 }
    {
        let mut draw = seed;
        for side in 0..2usize {
            for _block in 0..blocks {
                self.add_block(alloc, &mut draw, side, values)?;
            }
        }
        self.add_pairs(alloc)
    }
}

/// A random cycle: two tables that meet in so many values and one, three of them in each of so many blocks of either.
fn cycle(alloc: Global, seed: u64, values: u64, blocks: u64) -> Result<Cnf, NoMemory>
    requires { values < 1000 }
{
    let mut making = Making {
        clauses: Items::new(alloc),
        rows: 0,
        values: Vec::new(alloc),
    };
    making.make(alloc, seed, values, blocks)?;
    Ok(Cnf {
        vars: making.rows,
        clauses: making.clauses,
    })
}

fn said_of_cycle(alloc: Global, seed: u64) -> Result<(&'static str, usize), NoMemory> {
    let values = 5 + seed % 10;
    let cnf = cycle(alloc, seed, values, 2 * values + seed % 13)?;
    let said = said(alloc, &cnf, 1_000_000);
    drop(cnf);
    said
}

#[test]
fn random_cycles_are_guessed(rt: HostRuntime) -> Result<(), Fail> {
    let mut models = 0u32;
    let mut refutations = 0u32;
    for seed in 0..100u64 {
        let (said, _size) = said_of_cycle(rt.alloc(), seed)?;
        if said == "sat" {
            models = models.saturating_add(1);
        }
        if said == "unsat" {
            refutations = refutations.saturating_add(1);
        }
    }
    // So many by trying each way to leave every value to one of the tables.
    assert_eq!(rt; models, 43);
    assert_eq!(rt; refutations, 57);
    Ok(())
}
