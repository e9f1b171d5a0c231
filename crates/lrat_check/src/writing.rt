//! Writes logs.

ghost use Rattle.std.specs.Prelude.{◌≡◌, ◌++◌, ◌∷◌, [], IfOk, OnOk, Some, codes};
ghost use Rattle.std.specs.List.{flat_map};
ghost use Rattle.cnf_form.specs.Writing.{clause_bytes};
ghost use Rattle.lrat_check.specs.Writing.{hint_bytes, id_bytes, log_bytes, step_line, used_after, with_id, with_ids};

use cnf_form::{Clause, Log, Step, clause_text};
use cqa_value::NoMemory;
use itoa::Buffer;
use std::alloc::Global;

fn append_id(id: u64, out: &mut Vec<u8>) -> Result<(), NoMemory>
    ensures { OnOk result (out.new.items ≡ out.old.items ++ id_bytes id) }
{
    let mut buffer = Buffer::new();
    out.extend_from_slice(buffer.format(id).as_bytes())?;
    out.push(b' ')?;
    Ok(())
}

fn append_hint(hint: &i64, out: &mut Vec<u8>) -> Result<(), NoMemory>
    ensures { OnOk result (out.new.items ≡ out.old.items ++ hint_bytes hint.now) }
{
    let mut buffer = Buffer::new();
    out.extend_from_slice(buffer.format(*hint).as_bytes())?;
    out.push(b' ')?;
    Ok(())
}

fn append_hints(hints: &[i64], out: &mut Vec<u8>) -> Result<(), NoMemory>
    ensures { OnOk result (out.new.items ≡ out.old.items ++ flat_map hint_bytes hints.now) }
{
    for hint in hints {
        append_hint(hint, out)?;
    }
    Ok(())
}

fn append_ids(ids: &[u64], out: &mut Vec<u8>) -> Result<(), NoMemory>
    ensures { OnOk result (out.new.items ≡ out.old.items ++ flat_map id_bytes ids.now) }
{
    for id in ids {
        append_id(*id, out)?;
    }
    Ok(())
}

fn append_addition(
    id: u64,
    clause: &Clause,
    hints: &[i64],
    out: &mut Vec<u8>,
) -> Result<(), NoMemory>
    ensures { OnOk result (out.new.items ≡ out.old.items ++ (id_bytes id ++ clause_bytes clause.now.lits ++ 32 ∷ [] ++ flat_map hint_bytes hints.now ++ 48 ∷ 10 ∷ [])) }
{
    append_id(id, out)?;
    clause_text(clause, out)?;
    out.push(b' ')?;
    append_hints(hints, out)?;
    out.extend_from_slice(b"0\n")?;
    Ok(())
}

fn append_deletion(first: u64, ids: &[u64], out: &mut Vec<u8>) -> Result<(), NoMemory>
    ensures { OnOk result (out.new.items ≡ out.old.items ++ (id_bytes first ++ codes "d " ++ flat_map id_bytes ids.now ++ 48 ∷ 10 ∷ [])) }
{
    append_id(first, out)?;
    out.extend_from_slice(b"d ")?;
    append_ids(ids, out)?;
    out.extend_from_slice(b"0\n")?;
    Ok(())
}

fn greater(top: Option<u64>, id: u64) -> u64
    ensures { Some result ≡ with_id top id }
{
    match top {
        None => id,
        Some(top) => top.max(id),
    }
}

fn greatest(top: Option<u64>, ids: &[u64]) -> Option<u64>
    ensures { result ≡ with_ids top ids.now }
{
    let mut top = top;
    for id in ids {
        top = Some(greater(top, *id));
    }
    top
}

/// Appends a step's line, and gives the greatest id used up to it.
fn append_step(top: Option<u64>, step: &Step, out: &mut Vec<u8>) -> Result<Option<u64>, NoMemory>
    ensures { IfOk result (λ used. (used ≡ used_after top step.now) × (out.new.items ≡ out.old.items ++ step_line top step.now)) }
{
    match step {
        Step::Add { id, clause, hints } => {
            append_addition(*id, clause, hints.as_slice(), out)?;
            Ok(Some(greater(top, *id)))
        }
        Step::Delete { ids } => {
            let used = greatest(top, ids.as_slice());
            append_deletion(used.unwrap_or(1), ids.as_slice(), out)?;
            Ok(used)
        }
    }
}

/// The text of a log: a line for each step.
///
/// # Errors
///
/// `NoMemory` where memory is refused.
pub fn log_text(alloc: Global, log: &Log) -> Result<Vec<u8>, NoMemory>
    ensures { IfOk result (λ text. text.items ≡ log_bytes log.now.steps) }
{
    let mut text = Vec::new(alloc);
    let mut used = None;
    for step in log.steps.as_slice() {
        used = append_step(used, step, &mut text)?;
    }
    Ok(text)
}
