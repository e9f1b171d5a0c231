//! Writes formulas.

ghost use Rattle.std.specs.Prelude.{◌≡◌, ◌++◌, IfOk, OnOk, OnErr};
ghost use Rattle.std.specs.Fmt.{decimal};
ghost use Rattle.std.specs.List.{flat_map};
ghost use Rattle.std.specs.Io.{StartsWith};
ghost use Rattle.cnf_form.specs.Writing.{clause_bytes, clause_line, formula_bytes, lit_bytes};

use crate::{Clause, Cnf, Lit};
use cqa_value::NoMemory;
use itoa::Buffer;
use std::alloc::Global;

/// Appends a number in decimal.
fn append_number(number: u64, out: &mut Vec<u8>) -> Result<(), NoMemory>
    ensures ok { OnOk result (out.new.items ≡ out.old.items ++ decimal number) }
    ensures err { OnErr result (StartsWith out.new.items out.old.items) }
{
    let mut buffer = Buffer::new();
    out.extend_from_slice(buffer.format(number).as_bytes())?;
    Ok(())
}

fn append_lit(lit: Lit, out: &mut Vec<u8>) -> Result<(), NoMemory>
    ensures ok { OnOk result (out.new.items ≡ out.old.items ++ lit_bytes lit) }
    ensures err { OnErr result (StartsWith out.new.items out.old.items) }
{
    if !lit.positive {
        out.push(b'-')?;
    }
    append_number(lit.var as u64, out)?;
    out.push(b' ')?;
    Ok(())
}

fn append_clause(clause: &Clause, out: &mut Vec<u8>) -> Result<(), NoMemory>
    ensures ok { OnOk result (out.new.items ≡ out.old.items ++ clause_bytes clause.now.lits) }
    ensures err { OnErr result (StartsWith out.new.items out.old.items) }
{
    for lit in clause.lits.as_slice() {
        append_lit(*lit, out)?;
    }
    out.push(b'0')?;
    Ok(())
}

/// Appends a clause: its literals, each followed by a space, and `0`.
///
/// # Errors
///
/// `NoMemory` where memory is refused; nothing is appended then.
pub fn clause_text(clause: &Clause, out: &mut Vec<u8>) -> Result<(), NoMemory>
    ensures ok { OnOk result (out.new.items ≡ out.old.items ++ clause_bytes clause.now.lits) }
    ensures err { OnErr result (out.new.items ≡ out.old.items) }
{
    let start = out.len();
    let done = append_clause(clause, out);
    if done.is_err() {
        out.truncate(start);
    }
    done
}

fn append_lines(clauses: &[Clause], out: &mut Vec<u8>) -> Result<(), NoMemory>
    ensures { OnOk result (out.new.items ≡ out.old.items ++ flat_map clause_line clauses.now) }
{
    for clause in clauses {
        append_clause(clause, out)?;
        out.push(b'\n')?;
    }
    Ok(())
}

/// The text of a formula: the line of its header, and a line for each clause.
///
/// # Errors
///
/// `NoMemory` where memory is refused.
pub fn formula_text(alloc: Global, cnf: &Cnf) -> Result<Vec<u8>, NoMemory>
    ensures { IfOk result (λ text. text.items ≡ formula_bytes cnf.now) }
{
    let mut text = Vec::new(alloc);
    text.extend_from_slice(b"p cnf ")?;
    append_number(cnf.vars as u64, &mut text)?;
    text.push(b' ')?;
    append_number(cnf.clauses.len() as u64, &mut text)?;
    text.push(b'\n')?;
    append_lines(cnf.clauses.as_slice(), &mut text)?;
    Ok(text)
}
