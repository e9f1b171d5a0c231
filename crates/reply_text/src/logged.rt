//! Appends formulas with logs over their clauses.

ghost use Rattle.std.specs.Prelude.{◌≡◌, ◌++◌, OnOk};
ghost use Rattle.reply_text.specs.Texts.{proof_text};

use crate::Proof;
use crate::append::{append_bytes, append_words};
use cnf_form::formula_text;
use cqa_value::NoMemory;
use lrat_check::log_text;
use std::alloc::Global;

/// Appends the lines of a proof, each with a line feed at its end: the formula, the line `lrat`, and the log.
pub fn append_proof(alloc: Global, proof: &Proof, out: &mut Vec<u8>) -> Result<(), NoMemory>
    ensures { OnOk result (out.new.items ≡ out.old.items ++ proof_text proof.now) }
{
    append_bytes(formula_text(alloc, &proof.cnf)?.as_slice(), out)?;
    append_words("lrat\n", out)?;
    append_bytes(log_text(alloc, &proof.log)?.as_slice(), out)
}
