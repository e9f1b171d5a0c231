//! The cases that no script can show: words that aren't accepted, sizes of `demo`, devices that fail, how much is read, and a
//! long proof.

use crate::comparing::ends_as_wanted;
use crate::running::{Case, run, run_calm};
use std::alloc::{AllocError, Global};
use std::io;

/// Two statements and an unfinished one.
const UNFINISHED: &[u8] =
    b"create table t (a int, primary key (a));\ninsert into t values (1), (2);\nask";

/// The same two statements, and an answer.
const WHOLE: &[u8] =
    b"create table t (a int, primary key (a));\ninsert into t values (1), (2);\nask exists from t;\n";

/// A script of five statements; the first is its first 70 bytes.
const PEOPLE: &[u8] = b"create table person (id int, name text, city text, primary key (id));
insert into person values (1, 'Ann', 'Oslo'), (1, 'Ann', 'Bergen'), (2, 'Bo', 'Oslo');
ask select name from person where id = 1;
ask select city from person where id = 1;
ask select name from person where city = 'Oslo';
";

/// How many bytes its answers have: `created person`, `inserted 3`, `('Ann')`, `1 rows`, `0 rows`, `('Bo')` and `1 rows`,
/// a line each.
const PEOPLE_ANSWERS: u64 = 15 + 11 + 8 + 7 + 7 + 7 + 7;

/// Its first 99 bytes.
const PEOPLE_CUT: &[u8] = b"create table person (id int, name text, city text, primary key (id));
insert into person values (1, ";

/// The length of the first statement.
const FIRST_STATEMENT: usize = 70;

/// A formula that nothing satisfies, and the step that says so.
const REFUTED: &[u8] = b"c two units\np cnf 1 2\n1 0 -1\n0\nlrat\n3 0 1 2 0\n";

/// Two groups of lists; the first is its first 40 bytes.
const GROUPS: &[u8] = b"g 2 2 2\nl 1:1 2:1\nl 1:2 3:1\nl 2:2 3:1\ne\ng 2\nl\ne\n";

/// The length of the first group.
const FIRST_GROUP: usize = 40;

/// A run that is answered whole.
pub const ANSWERED: Case<'static> = Case {
    words: &["run"],
    input: WHOLE,
    piece: 7,
    read: 0,
    write: 0,
    room: 1_000,
    status: 0,
    output: b"created t\ninserted 2\n()\n1 rows\n",
};

/// A check of a proof that passes.
pub const VERIFIED: Case<'static> = Case {
    words: &["check"],
    input: REFUTED,
    output: b"verified\n",
    ..ANSWERED
};

/// A run over the script of people where a read fails.
const READ_FAILS: Case<'static> = Case {
    input: PEOPLE,
    piece: FIRST_STATEMENT,
    status: 3,
    ..ANSWERED
};

/// A run over the script of people where a write fails.
const WRITE_FAILS: Case<'static> = Case {
    status: 4,
    ..READ_FAILS
};

/// The same where the first write fails.
const FIRST_WRITE_FAILS: Case<'static> = Case {
    write: 1,
    output: b"",
    ..WRITE_FAILS
};

/// Groups that are answered whole, the first one before the second is read.
const JUDGED: Case<'static> = Case {
    words: &["judge"],
    input: GROUPS,
    piece: FIRST_GROUP,
    output: b"open 1 2 2\ncertain\n",
    ..ANSWERED
};

/// The same groups where a read or a write fails behind the first reply.
const JUDGED_IN_PART: Case<'static> = Case {
    output: b"open 1 2 2\n",
    ..JUDGED
};

/// Words that aren't accepted.
const REFUSED: Case<'static> = Case {
    status: 2,
    output: b"",
    ..ANSWERED
};

/// The first of them are other words, the next ones sizes that `demo` doesn't take.
const REFUSALS: [Case<'static>; 8] = [
    Case {
        words: &["runs"],
        ..REFUSED
    },
    Case {
        words: &[],
        ..REFUSED
    },
    Case {
        words: &["run", "run"],
        ..REFUSED
    },
    Case {
        words: &["run", "x"],
        ..REFUSED
    },
    Case {
        words: &["--help"],
        ..REFUSED
    },
    Case {
        words: &["demo", "0"],
        ..REFUSED
    },
    Case {
        words: &["demo", "100001"],
        ..REFUSED
    },
    Case {
        words: &["demo", "+5"],
        ..REFUSED
    },
];

/// The script of the least size. A first read would fail: the input stays unread.
const DEMO: Case<'static> = Case {
    words: &["demo", "1"],
    read: 1,
    output: b"demo 1: statements 12, rows 156, certain 0, possible 2, refused 0\n",
    ..ANSWERED
};

/// Scripts of three sizes.
const DEMOS: [Case<'static>; 3] = [
    DEMO,
    Case {
        words: &["demo", "300"],
        output: b"demo 300: statements 12, rows 1625, certain 175, possible 500, refused 0\n",
        ..DEMO
    },
    Case {
        words: &["demo", "20000"],
        output: b"demo 20000: statements 12, rows 98483, certain 11666, possible 33333, refused 0\n",
        ..DEMO
    },
];

/// Each status of `run`.
const RUNS: [Case<'static>; 6] = [
    ANSWERED,
    Case {
        input: UNFINISHED,
        status: 1,
        output: b"created t\ninserted 2\nerror 15 Unfinished\n",
        ..ANSWERED
    },
    Case {
        read: 1,
        status: 3,
        output: b"",
        ..ANSWERED
    },
    Case {
        read: 9,
        status: 3,
        output: b"created t\n",
        ..ANSWERED
    },
    Case {
        write: 1,
        status: 4,
        output: b"",
        ..ANSWERED
    },
    Case {
        room: 16,
        status: 4,
        output: b"created t\ninsert",
        ..ANSWERED
    },
];

/// Each status of `check`.
const CHECKS: [Case<'static>; 6] = [
    VERIFIED,
    Case {
        input: b"",
        status: 1,
        output: b"refused line 1 BadFormula\n",
        ..VERIFIED
    },
    Case {
        words: &["Check"],
        status: 2,
        output: b"",
        ..VERIFIED
    },
    Case {
        read: 3,
        status: 3,
        output: b"",
        ..VERIFIED
    },
    Case {
        write: 1,
        status: 4,
        output: b"",
        ..VERIFIED
    },
    Case {
        room: 4,
        status: 4,
        output: b"veri",
        ..VERIFIED
    },
];

/// Where a device fails, or the input is cut off, what came before is answered.
const FAILING: [Case<'static>; 9] = [
    Case {
        read: 1,
        output: b"",
        ..READ_FAILS
    },
    Case {
        read: 2,
        output: b"created person\n",
        ..READ_FAILS
    },
    Case {
        piece: 1,
        read: 100,
        output: b"created person\n",
        ..READ_FAILS
    },
    Case {
        input: PEOPLE_CUT,
        status: 1,
        output: b"created person\nerror 15 Unfinished\n",
        ..ANSWERED
    },
    FIRST_WRITE_FAILS,
    Case {
        write: 2,
        output: b"created person\n",
        ..WRITE_FAILS
    },
    Case {
        write: 3,
        output: b"created person\ninserted 3\n",
        ..WRITE_FAILS
    },
    Case {
        write: 4,
        output: b"created person\ninserted 3\n('Ann')\n1 rows\n",
        ..WRITE_FAILS
    },
    Case {
        write: 5,
        output: b"created person\ninserted 3\n('Ann')\n1 rows\n0 rows\n",
        ..WRITE_FAILS
    },
];

/// Where a device fails, the groups that came before are answered.
const JUDGES: [Case<'static>; 9] = [
    JUDGED,
    Case { piece: 1, ..JUDGED },
    Case {
        read: 1,
        status: 3,
        output: b"",
        ..JUDGED
    },
    Case {
        read: 2,
        status: 3,
        ..JUDGED_IN_PART
    },
    Case {
        piece: 1,
        read: 45,
        status: 3,
        ..JUDGED_IN_PART
    },
    Case {
        read: 3,
        status: 3,
        ..JUDGED
    },
    Case {
        write: 1,
        status: 4,
        output: b"",
        ..JUDGED
    },
    Case {
        write: 2,
        status: 4,
        ..JUDGED_IN_PART
    },
    Case {
        room: 14,
        status: 4,
        output: b"open 1 2 2\ncer",
        ..JUDGED
    },
];

/// How many cases of a table end otherwise. A line says which.
fn failures(rt: &HostRuntime, table: &str, cases: &[Case<'static>]) -> io::Result<u64> {
    let mut failed = 0u64;
    for (number, case) in cases.iter().enumerate() {
        if !ends_as_wanted(rt, table, case)? {
            println!(rt; "{table}: case {number}")?;
            failed = failed.saturating_add(1);
        }
    }
    Ok(failed)
}

/// Whether a run whose first write fails reads the first statement alone, which is the first piece: a statement is answered
/// before the next piece is read.
fn reads_no_more(alloc: Global) -> Result<bool, AllocError> {
    let end = run(alloc, &FIRST_WRITE_FAILS)?;
    let left = end.source.left().len();
    drop(end);
    Ok(left.saturating_add(FIRST_STATEMENT) == PEOPLE.len())
}

/// Whether the bytes of the answers to the script of people are as many as they have to be.
fn counts_bytes(alloc: Global) -> Result<bool, AllocError> {
    let case = Case {
        input: PEOPLE,
        ..ANSWERED
    };
    let (status, written) = run_calm(alloc, &case)?;
    Ok(status == case.status && written == PEOPLE_ANSWERS)
}

/// Appends a step that adds the clause of the step before it again.
fn append_step(alloc: Global, text: &mut Vec<u8>, id: u32) -> Result<(), AllocError> {
    let before = id.saturating_sub(1);
    let step = format!(in alloc; "{id} 1 0 {before} 0\n")?;
    let done = text.extend_from_slice(step.as_bytes());
    drop(step);
    done
}

/// Appends a refutation of 100,001 steps, each of which stands on the one before it.
fn append_long_proof(alloc: Global, text: &mut Vec<u8>) -> Result<(), AllocError> {
    text.extend_from_slice(b"p cnf 1 2\n1 0\n-1 0\nlrat\n3 1 0 1 0\n")?;
    for id in 4..100_003u32 {
        append_step(alloc, text, id)?;
    }
    text.extend_from_slice(b"100003 0 100002 2 0\n")
}

/// Whether a long proof is checked: the time that a step takes doesn't grow with the steps before it.
fn checks_a_long_proof(rt: &HostRuntime) -> io::Result<bool> {
    let mut text = Vec::new(rt.alloc());
    append_long_proof(rt.alloc(), &mut text)?;
    let case = Case {
        input: text.as_slice(),
        piece: 65_536,
        ..VERIFIED
    };
    ends_as_wanted(rt, "a long proof", &case)
}

/// How many cases of all tables end otherwise. Lines say which.
fn all_failures(rt: &HostRuntime) -> io::Result<u64> {
    let refusals = failures(rt, "words that aren't accepted", &REFUSALS)?;
    let demos = failures(rt, "a size of demo", &DEMOS)?;
    let runs = failures(rt, "a status of run", &RUNS)?;
    let checks = failures(rt, "a status of check", &CHECKS)?;
    let failing = failures(rt, "a device that fails", &FAILING)?;
    let judges = failures(rt, "a status of judge", &JUDGES)?;
    let statuses = runs.saturating_add(checks).saturating_add(failing);
    let statuses = statuses.saturating_add(judges);
    Ok(refusals.saturating_add(demos).saturating_add(statuses))
}

/// Hands on whether something is so. A line says it where it isn't.
pub fn told(rt: &HostRuntime, is_so: bool, otherwise: &str) -> io::Result<bool> {
    if !is_so {
        println!(rt; "{otherwise}")?;
    }
    Ok(is_so)
}

/// Whether all cases end as they have to. A line says which doesn't.
pub fn all_pass(rt: &HostRuntime) -> io::Result<bool> {
    let failed = all_failures(rt)?;
    let reads_no_more = reads_no_more(rt.alloc())?;
    let reads_no_more = told(rt, reads_no_more, "more is read behind a reply that fails")?;
    let counts_bytes = counts_bytes(rt.alloc())?;
    let counts_bytes = told(rt, counts_bytes, "another number of bytes is written")?;
    Ok(checks_a_long_proof(rt)? && reads_no_more && counts_bytes && failed == 0)
}
