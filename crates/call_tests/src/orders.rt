//! The elimination orders by which asks go.

use crate::making::{Wanted, is_answered};
use query_strategy::{Strategy, strategy_by_sizes};
use std::alloc::Global;
use table_blocks::Bound;

/// A query, the rows of each atom's table, none where they are missing, and the places of its atoms in the order in which
/// they are taken.
struct Case {
    query: &'static str,
    sizes: &'static [u32],
    order: &'static [u32],
}

impl Wanted for Case {
    fn comes(&self, alloc: Global, bound: &Bound<'_>) -> bool {
        match strategy_by_sizes(alloc, bound.query, &bound.variables, self.sizes) {
            Ok(Strategy::Plan(plan)) => {
                let right = plan.order.as_slice() == self.order;
                drop(plan);
                right
            }
            other => {
                drop(other);
                false
            }
        }
    }
}

const TABLES: [&str; 3] = [
    "create table a (k int, x int, primary key (k))",
    "create table b (k int, z int, primary key (k))",
    "create table c (k int, z int, primary key (k))",
];

/// Tables that nothing links, with the answer in the later one, and without answer columns; a table that joins link to
/// none, before those that they link; one that is joined to a table taken, before one that has answer columns; a small table
/// before a large one; an order that begins at the other end of a chain, where that which is tried first has a detour.
const CASES: [Case; 6] = [
    Case {
        query: "ask select b.z from a, b",
        sizes: &[],
        order: &[1, 0],
    },
    Case {
        query: "ask exists from a, b",
        sizes: &[],
        order: &[0, 1],
    },
    Case {
        query: "ask select c.z from b, a, c where a.x = c.k",
        sizes: &[],
        order: &[1, 2, 0],
    },
    Case {
        query: "ask select a.k, b.k from a, b, c where a.k = c.k",
        sizes: &[],
        order: &[0, 2, 1],
    },
    Case {
        query: "ask exists from a, c where a.k = c.k",
        sizes: &[20_000, 10],
        order: &[1, 0],
    },
    Case {
        query: "ask select a.k, c.k from a, b, c where a.k = b.z and b.k = c.z",
        sizes: &[20_000, 20_000, 20_000],
        order: &[2, 1, 0],
    },
];

#[test]
fn orders_begin_with_answers(rt: HostRuntime) {
    let alloc = rt.alloc();
    for case in &CASES {
        assert!(rt; is_answered(alloc, &TABLES, &[], case.query, case));
    }
}
