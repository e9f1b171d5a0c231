//! Formulas as texts, read and decided, logs that are read and written again, and the order and the starts of a search.

ghost use Rattle.std.specs.Prelude.{◌<◌};

use cdcl::{Outcome, solve};
use cnf_form::{Cnf, Lit, read_formula};
use lrat_check::{check, log_text, read_log};
use merged_search::is_accepted;
use search_trail::order::Order;
use search_trail::restart::Restarts;
use std::alloc::{AllocError, Global};
use std::test::Fail;

/// Three formulas: four clauses over two variables, a variable and its negation, and one that propagation can't decide.
const SQUARE: &[u8] = b"p cnf 2 4\n1 2 0\n-1 2 0\n1 -2 0\n-1 -2 0\nlrat\n";

const UNITS: &[u8] = b"p cnf 1 2\n1 0\n-1 0\nlrat\n";

const PAIRS: &[u8] =
    b"p cnf 12 14\n1 2 0\n3 4 0\n5 6 0\n7 8 0\n9 10 0\n11 12 0\n-1 -9 0\n-1 -11 0\n-2 -7 0\n-3 -9 0\n-3 -11 0\n-4 -8 0\n-5 -10 0\n-6 -12 0\nlrat\n";

/// What a solver answers, with how many variables it makes true, or how many steps its log has; a refutation counts where
/// the checker passes it.
fn answer(alloc: Global, cnf: &Cnf, budget: u32) -> Result<(&'static str, usize), Fail> {
    if !is_accepted(cnf) {
        return Ok(("unfit", 0));
    }
    let outcome = solve(alloc, cnf, budget)?;
    let said = match &outcome {
        Outcome::Sat(values) => {
            let count = values.as_slice().iter().filter(|value| **value).count();
            ("sat", count)
        }
        Outcome::Unsat(log) => match check(alloc, cnf, log) {
            Ok(()) => ("unsat", log.steps.as_slice().len()),
            Err(_) => ("refused", 0),
        },
        Outcome::Spent(log) => ("spent", log.steps.as_slice().len()),
    };
    drop(outcome);
    Ok(said)
}

fn answer_to(alloc: Global, text: &[u8], budget: u32) -> Result<(&'static str, usize), Fail> {
    let (cnf, _) = read_formula(alloc, text)?;
    let said = answer(alloc, &cnf, budget);
    drop(cnf);
    said
}

#[test]
fn formulas_are_decided(rt: HostRuntime) -> Result<(), Fail> {
    let cases: [(&[u8], u32, (&str, usize)); 7] = [
        (b"p cnf 0 0\nlrat\n", 0, ("sat", 0)),
        (b"p cnf 0 1\n0\nlrat\n", 0, ("unsat", 1)),
        (b"p cnf 2 2\n1 0\n-1 2 0\nlrat\n", 0, ("sat", 2)),
        (UNITS, 0, ("unsat", 1)),
        (SQUARE, 0, ("spent", 0)),
        (SQUARE, 1, ("unsat", 2)),
        (PAIRS, 0, ("spent", 0)),
    ];
    for (text, budget, want) in cases {
        assert_eq!(rt; answer_to(rt.alloc(), text, budget)?, want);
    }
    assert_eq!(rt; answer_to(rt.alloc(), PAIRS, 200_000)?.0, "unsat");
    Ok(())
}

/// Appends the clause by which a variable implies the next one.
fn append_link(alloc: Global, text: &mut Vec<u8>, var: u32) -> Result<(), AllocError>
    requires { var < 1000000 }
{
    let next = var + 1;
    let link = format!(in alloc; "-{var} {next} 0\n")?;
    let done = text.extend_from_slice(link.as_bytes());
    drop(link);
    done
}

/// A chain in which each variable implies the next one, the links from odd variables first.
fn append_chain(alloc: Global, text: &mut Vec<u8>) -> Result<(), AllocError> {
    text.extend_from_slice(b"p cnf 400000 400000\n1 0\n")?;
    for link in 0..200_000u32 {
        append_link(alloc, text, 2 * link + 1)?;
    }
    for link in 1..200_000u32 {
        append_link(alloc, text, 2 * link)?;
    }
    text.extend_from_slice(b"lrat\n")
}

#[test]
fn a_long_chain_is_propagated(rt: HostRuntime) -> Result<(), Fail> {
    let mut text = Vec::new(rt.alloc());
    append_chain(rt.alloc(), &mut text)?;
    let said = answer_to(rt.alloc(), text.as_slice(), 0);
    drop(text);
    assert_eq!(rt; said?, ("sat", 400_000));
    Ok(())
}

/// The text of a copy of the log that a text has.
fn log_again(alloc: Global, text: &[u8]) -> Result<Vec<u8>, Fail> {
    let log = read_log(alloc, text, 2)?;
    let copied = log.copy(alloc);
    drop(log);
    let log = copied?;
    let written = log_text(alloc, &log);
    drop(log);
    Ok(written?)
}

#[test]
fn logs_are_written(rt: HostRuntime) -> Result<(), Fail> {
    let text = b"7 d 0\n3 1 -2 0 -9 0009 0\n1 d 5 4 0\n\n4 d 00\n\t6 0 0\n";
    assert_eq!(rt;
        log_again(rt.alloc(), text)?.as_slice(),
        b"1 d 0\n3 1 -2 0 -9 9 0\n5 d 5 4 0\n5 d 0\n6 0 0\n".as_slice()
    );
    Ok(())
}

#[test]
fn what_conflicts_met_most_is_decided_first(rt: HostRuntime) -> Result<(), Fail> {
    let mut order = Order::new(rt.alloc(), 5)?;
    let places: [Option<usize>; 6] = [None; 6];
    for _conflict in 0..3000 {
        order.raise(&[3, 4]);
    }
    order.raise(&[4, 2]);
    assert_eq!(rt;
        (order.next(&places), order.next(&places)),
        (Some(4), Some(3))
    );
    let lit = Lit {
        var: 4,
        positive: true,
    };
    order.put_back(lit);
    assert_eq!(rt;
        (order.next(&places), order.next(&places)),
        (Some(4), Some(2))
    );
    assert_eq!(rt; (order.value(4), order.value(3)), (true, false));
    Ok(())
}

#[test]
fn searches_start_anew_by_the_sequence(rt: HostRuntime) {
    let mut restarts = Restarts::new();
    for searches in [400u32, 400, 800, 400, 400, 800, 1600, 400] {
        let mut early = false;
        for _search in 1..searches {
            early = restarts.is_due() || early;
        }
        assert_eq!(rt; (early, restarts.is_due()), (false, true));
    }
}
