//! Explanations of which a part is free: which of several repairs they tell, and by which steps they refute a formula.

use crate::devices::{ANSWERED, VERIFIED, told};
use crate::running::{Case, run};
use std::alloc::{AllocError, Global};
use std::io;

/// A call that explains a row which two repairs have no witness of.
struct Rejecting {
    /// The call, whose output tells one of them.
    call: Case<'static>,
    /// The output that tells the other.
    other: &'static [u8],
}

/// A join that has a plan, which takes no budget; and two tables that attack each other weakly, with each of four rows in both.
const REJECTING: [Rejecting; 2] = [
    Rejecting {
        call: Case {
            input: b"create table r (x int, y int, primary key (x));
create table s (y int, z int, primary key (y));
insert into r values (1, 1), (1, 2);
insert into s values (1, 5), (1, 6);
set conflicts 0;
explain row () for exists from r, s where r.y = s.y;
",
            output: b"created r\ncreated s\ninserted 2\ninserted 2\nconflicts 0\nrejected\nkeep r (1, 2)\nkeep s (1, 5)\n",
            ..ANSWERED
        },
        other: b"created r\ncreated s\ninserted 2\ninserted 2\nconflicts 0\nrejected\nkeep r (1, 2)\nkeep s (1, 6)\n",
    },
    Rejecting {
        call: Case {
            input: b"create table r (x int, y int, primary key (x));
create table s (y int, x int, primary key (y));
insert into r values (1, 1), (1, 2), (2, 1), (2, 2);
insert into s values (1, 1), (1, 2), (2, 1), (2, 2);
set conflicts 0;
explain row () for exists from r, s where r.x = s.x and r.y = s.y;
",
            output: b"created r\ncreated s\ninserted 4\ninserted 4\nconflicts 0\nrejected\nkeep r (1, 1)\nkeep r (2, 2)\nkeep s (1, 2)\nkeep s (2, 1)\n",
            ..ANSWERED
        },
        other: b"created r\ncreated s\ninserted 4\ninserted 4\nconflicts 0\nrejected\nkeep r (1, 2)\nkeep r (2, 1)\nkeep s (1, 1)\nkeep s (2, 2)\n",
    },
];

/// A script whose last reply is a refutation.
struct Refuting {
    /// The script.
    script: &'static [u8],
    /// The output before the formula.
    before: &'static [u8],
    /// The formula, and the line before the log.
    formula: &'static [u8],
}

/// A row that is certain through different rows in different repairs, and one whose formula propagation alone doesn't decide;
/// and rows that are certain for a union and for none of its parts: over one table, and over two with a part that stands twice.
const REFUTING: [Refuting; 4] = [
    Refuting {
        script: b"create table r (x int, y int, primary key (x));
create table s (y int, x int, primary key (y));
insert into r values (1, 1), (2, 1);
insert into s values (1, 1), (1, 2);
set conflicts 0;
ask exists from r, s where r.x = s.x and r.y = s.y;
explain row () for exists from r, s where r.x = s.x and r.y = s.y;
",
        before: b"created r\ncreated s\ninserted 2\ninserted 2\nconflicts 0\n()\n1 rows\ncertain by refutation\n",
        formula: b"p cnf 4 5\n1 0\n2 0\n3 4 0\n-1 -3 0\n-2 -4 0\nlrat\n",
    },
    Refuting {
        script: b"create table r (x int, y int, w int, primary key (x));
create table s (y int, x int, primary key (y));
insert into r values (1, 1, 0), (1, 1, 1), (2, 1, 0), (2, 1, 1);
insert into s values (1, 1), (1, 2);
set conflicts 0;
ask exists from r, s where r.x = s.x and r.y = s.y;
explain row () for exists from r, s where r.x = s.x and r.y = s.y;
",
        before: b"created r\ncreated s\ninserted 4\ninserted 2\nconflicts 0\n()\n1 rows\ncertain by refutation\n",
        formula: b"p cnf 6 7\n1 2 0\n3 4 0\n5 6 0\n-1 -5 0\n-2 -5 0\n-3 -6 0\n-4 -6 0\nlrat\n",
    },
    Refuting {
        script: b"create table r (x int, y int, primary key (x));
insert into r values (1, 1), (1, 2);
explain row (1) for select x from r where y = 1 union select x from r where y = 2;
",
        before: b"created r\ninserted 2\ncertain by refutation\n",
        formula: b"p cnf 2 3\n1 2 0\n-1 0\n-2 0\nlrat\n",
    },
    Refuting {
        script: b"create table c (x int, y int, primary key (x));
create table d (x int, y int, primary key (x));
insert into c values (1, 1), (1, 2);
insert into d values (1, 1), (1, 2);
explain row () for exists from d, c where d.y = c.y union exists from c, d where c.y = 1 and d.y = 2
    union exists from d, c where c.y = 2 and d.y = 1 union exists from c, d where c.y = 1 and d.y = 2;
",
        before: b"created c\ncreated d\ninserted 2\ninserted 2\ncertain by refutation\n",
        formula: b"p cnf 4 7\n1 2 0\n3 4 0\n-1 -3 0\n-2 -4 0\n-1 -4 0\n-2 -3 0\n-1 -4 0\nlrat\n",
    },
];

/// Whether a call ends with a case's status, and gives its output or another one.
fn gives_either(alloc: Global, case: &Case<'_>, other: &[u8]) -> Result<bool, AllocError> {
    let end = run(alloc, case)?;
    let given = end.sink.bytes();
    let is_one = given == case.output || given == other;
    let is_so = is_one && end.status == case.status;
    drop(end);
    Ok(is_so)
}

/// Whether `check` verifies a formula with its log.
fn is_verified(alloc: Global, proof: &[u8]) -> Result<bool, AllocError> {
    let case = Case {
        input: proof,
        ..VERIFIED
    };
    gives_either(alloc, &case, case.output)
}

/// Whether the output of a script ends with its formula and a refutation of it.
fn is_refuted(alloc: Global, refuting: &Refuting, output: &[u8]) -> Result<bool, AllocError> {
    let Some(proof) = output.strip_prefix(refuting.before) else {
        return Ok(false);
    };
    Ok(proof.starts_with(refuting.formula) && is_verified(alloc, proof)?)
}

/// Whether the last reply to a script is its formula with a refutation.
fn refutes(alloc: Global, refuting: &Refuting) -> Result<bool, AllocError> {
    let case = Case {
        input: refuting.script,
        ..ANSWERED
    };
    let end = run(alloc, &case)?;
    let refuted = is_refuted(alloc, refuting, end.sink.bytes());
    let is_answered = end.status == case.status;
    drop(end);
    Ok(refuted? && is_answered)
}

/// Whether each explanation is one that it may be. A line says which isn't.
pub fn all_pass(rt: &HostRuntime) -> io::Result<bool> {
    let mut pass = true;
    for rejecting in &REJECTING {
        let rejected = gives_either(rt.alloc(), &rejecting.call, rejecting.other)?;
        pass &= told(rt, rejected, "a rejected row is told by no repair")?;
    }
    for refuting in &REFUTING {
        let refuted = refutes(rt.alloc(), refuting)?;
        pass &= told(rt, refuted, "a certain row is told by no refutation")?;
    }
    Ok(pass)
}
