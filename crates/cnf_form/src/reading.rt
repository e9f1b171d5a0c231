//! Reads formulas.

ghost use Rattle.std.specs.Prelude.{◌≡◌, ℕ, List};
ghost use Rattle.cqa_value.specs.declared.memory.Fail.TheVariants.{Refused};
ghost use Rattle.cnf_form.specs.declared.fault.Part.TheVariants as part;
ghost use Rattle.cnf_form.specs.declared.formula.Cnf.{Cnf as CnfValue};
ghost use Rattle.cnf_form.specs.Formulas.{FormulaIs};
ghost use Rattle.cnf_form.specs.Writing.{IsWritable, ReadsBack, proof_bytes};

use crate::body::{Body, Read, read_body};
use crate::header::{Find, find_header};
use crate::{Cnf, FormatFault, Part};
use cqa_value::{Fail, Items};
use std::alloc::Global;

fn fault(line: u64) -> Fail<FormatFault>
    ensures { result ≡ Refused (record { line = line; part = part.Formula }) }
{
    Fail::Refused(FormatFault {
        line,
        part: Part::Formula,
    })
}

fn read_parts(alloc: Global, bytes: &[u8]) -> Result<(Cnf, usize), Fail<FormatFault>>
    ensures { FormulaIs bytes.now result }
{
    match find_header(bytes) {
        Find::Bad(line) => Err(fault(line)),
        Find::Found(header, text, number) => {
            let mut body = Body {
                todo: header.count,
                partial: Vec::new(alloc),
                clauses: Vec::new(alloc),
            };
            match read_body(alloc, header.vars, &mut body, text, number)? {
                Read::Bad(line) => Err(fault(line)),
                Read::Done(rest) => {
                    let cnf = Cnf {
                        vars: header.vars,
                        clauses: Items::from_vec(body.clauses),
                    };
                    Ok((cnf, bytes.len() - rest.len()))
                }
            }
        }
    }
}

/// Reads the formula of a proof's text, and gives the place of the bytes after its `lrat` line.
///
/// # Errors
///
/// `FormatFault` with the number of the first line that breaks a rule, from 1; `NoMemory` where memory is refused.
pub fn read_formula(alloc: Global, bytes: &[u8]) -> Result<(Cnf, usize), Fail<FormatFault>>
    // The answer is what the lines say, or the first that breaks a rule.
    ensures exact { FormulaIs bytes.now result }
    // What is written of a formula, and the line `lrat`, is read as the same formula.
    ensures reads_written { (cnf : CnfValue) (log : List ℕ) → IsWritable cnf → bytes.now ≡ proof_bytes cnf log → ReadsBack cnf log bytes.now result }
{
    read_parts(alloc, bytes)
}
