//! The least and the greatest value of lists with weights, over all choices of a row of each block. The values were worked out by hand.

use block_choices::BlockRow;
use choice_values::{WeightedLists, are_lists, greatest, least};
use std::alloc::Global;

/// A weight, and the blocks and rows of a list.
struct Told {
    weight: i128,
    names: &'static [(u32, u32)],
}

/// Blocks by their sizes, lists of their rows, how many lists may be looked at, and the ends; none where that is too few.
struct Case {
    sizes: &'static [u32],
    lists: &'static [Told],
    budget: u64,
    ends: Option<(i128, i128)>,
}

const CASES: [Case; 7] = [
    // No list: each choice has the value 0.
    Case {
        sizes: &[2, 3],
        lists: &[],
        budget: 0,
        ends: Some((0, 0)),
    },
    // One block, of which a row is in no list.
    Case {
        sizes: &[3],
        lists: &[
            Told {
                weight: 5,
                names: &[(0, 0)],
            },
            Told {
                weight: -2,
                names: &[(0, 2)],
            },
        ],
        budget: 100,
        ends: Some((-2, 5)),
    },
    // A list that each choice holds, and one that none does, since it has two rows of a block.
    Case {
        sizes: &[2],
        lists: &[
            Told {
                weight: 7,
                names: &[],
            },
            Told {
                weight: 100,
                names: &[(0, 0), (0, 1)],
            },
        ],
        budget: 100,
        ends: Some((7, 7)),
    },
    // Two blocks that no list joins: 1 or 2, and 10 or 20.
    Case {
        sizes: &[2, 2],
        lists: &[
            Told {
                weight: 1,
                names: &[(0, 0)],
            },
            Told {
                weight: 2,
                names: &[(0, 1)],
            },
            Told {
                weight: 10,
                names: &[(1, 0)],
            },
            Told {
                weight: 20,
                names: &[(1, 1)],
            },
        ],
        budget: 100,
        ends: Some((11, 22)),
    },
    // By row 0 of block 0 the value is 3 or 0 and -5 or 0, by row 1 it is 4 or 0.
    Case {
        sizes: &[2, 2, 2],
        lists: &[
            Told {
                weight: 3,
                names: &[(0, 0), (1, 0)],
            },
            Told {
                weight: 4,
                names: &[(0, 1), (1, 1)],
            },
            Told {
                weight: -5,
                names: &[(0, 0), (2, 0)],
            },
        ],
        budget: 100,
        ends: Some((-5, 4)),
    },
    // Three blocks of two rows, and how many pairs of them agree: two always do.
    Case {
        sizes: &[2, 2, 2],
        lists: &[
            Told {
                weight: 1,
                names: &[(0, 0), (1, 0)],
            },
            Told {
                weight: 1,
                names: &[(0, 1), (1, 1)],
            },
            Told {
                weight: 1,
                names: &[(1, 0), (2, 0)],
            },
            Told {
                weight: 1,
                names: &[(1, 1), (2, 1)],
            },
            Told {
                weight: 1,
                names: &[(0, 0), (2, 0)],
            },
            Told {
                weight: 1,
                names: &[(0, 1), (2, 1)],
            },
        ],
        budget: 100,
        ends: Some((1, 3)),
    },
    // One list, and no list may be looked at.
    Case {
        sizes: &[2],
        lists: &[Told {
            weight: 1,
            names: &[(0, 0)],
        }],
        budget: 0,
        ends: None,
    },
];

/// The lists of a case.
fn lists_of(alloc: Global, told: &[Told]) -> Option<WeightedLists> {
    let mut lists = WeightedLists::new(alloc);
    let mut names = Vec::new(alloc);
    for list in told {
        names.clear();
        for (block, row) in list.names {
            names
                .push(BlockRow {
                    block: *block,
                    row: *row,
                })
                .ok()?;
        }
        lists.add(list.weight, names.as_slice()).ok()?;
    }
    Some(lists)
}

/// An end of a case: its least value, or its greatest.
fn end_of(alloc: Global, case: &Case, lists: &WeightedLists, most: bool) -> Option<i128> {
    if !are_lists(case.sizes, lists) {
        return None;
    }
    let found = if most {
        greatest(alloc, case.sizes, lists, case.budget)
    } else {
        least(alloc, case.sizes, lists, case.budget)
    };
    match found {
        Ok(best) => Some(best.value),
        Err(_) => None,
    }
}

/// Whether both ends of a case are as they are told.
fn is_found(alloc: Global, case: &Case) -> bool {
    let Some(lists) = lists_of(alloc, case.lists) else {
        return false;
    };
    let low = end_of(alloc, case, &lists, false);
    let high = end_of(alloc, case, &lists, true);
    drop(lists);
    match case.ends {
        Some((least, greatest)) => low == Some(least) && high == Some(greatest),
        None => low.is_none() && high.is_none(),
    }
}

#[test]
fn ends_of_values_are_found(rt: HostRuntime) {
    let alloc = rt.alloc();
    for case in &CASES {
        assert!(rt; is_found(alloc, case));
    }
}
