//! From the text of a certificate to what it says.

ghost use Rattle.std.specs.Prelude.{◌≡◌, ◌≤◌, [], IfOk, IfErr, length};
ghost use Rattle.cqa_model.specs.declared.limits.TheConstants.{LONGEST_INPUT};
ghost use Rattle.block_tree.specs.declared.cause.RewriteCheck.TheVariants.{BadText};
ghost use Rattle.rewrite_check.specs.Spelling.{Created, Ordered, SpellsCertificate, ChecksRewriting};
ghost use Rattle.rewrite_check.specs.Reading.{GoesFrom, IfRefused, IsBadStatement, asked_stage};

use crate::certificate::{Certificate, Claim};
use crate::head::head;
use crate::nodes::nodes;
use crate::order::order;
use crate::script::Script;
use cqa_value::{Fail, Items};
use std::alloc::Global;
use table_blocks::Database;

/// Reads the order behind a claim over its tables; no block is listed yet.
///
/// # Errors
///
/// The number of the statement that is due, where it is missing or no order of the claim's tables.
fn ordered(
    alloc: Global,
    script: &mut Script<'_>,
    tables: Database,
    claim: Claim,
) -> Result<Certificate, Fail<u32>>
    requires { length claim.select.tables ≡ length claim.query.atoms }
    ensures leads { IfOk result (λ certificate. GoesFrom (asked_stage tables claim) script.old (Ordered certificate) script.new) }
    ensures bad { IfErr result (IfRefused (IsBadStatement (asked_stage tables claim) script.old)) }
{
    match order(alloc, script, &claim) {
        Ok(order) => {
            let Claim { select, query, row } = claim;
            let nodes = Items::new(alloc);
            Ok(Certificate {
                tables,
                select,
                query,
                row,
                order,
                nodes,
            })
        }
        Err(fail) => {
            drop(tables);
            drop(claim);
            Err(fail)
        }
    }
}

/// Reads a certificate up to its order.
///
/// # Errors
///
/// The number of the first bad statement.
fn begun(alloc: Global, script: &mut Script<'_>) -> Result<Certificate, Fail<u32>>
    ensures leads { IfOk result (λ certificate. GoesFrom (Created []) script.old (Ordered certificate) script.new) }
    ensures bad { IfErr result (IfRefused (IsBadStatement (Created []) script.old)) }
{
    let mut tables = Database::new(alloc);
    match head(alloc, script, &mut tables) {
        Ok(claim) => ordered(alloc, script, tables, claim),
        Err(fail) => {
            drop(tables);
            Err(fail)
        }
    }
}

/// The certificate that a text spells: the bytes behind its first line.
///
/// # Errors
///
/// The number of the first statement, from 1, that isn't of its form, or that is missing; where the end isn't blank, the number of
/// statements and 1. `NoMemory` where memory is refused.
pub fn read(alloc: Global, bytes: &[u8]) -> Result<Certificate, Fail<u32>>
    requires { length bytes.now ≤ LONGEST_INPUT }
    ensures spelled { IfOk result (SpellsCertificate bytes.now) }
    ensures few { IfOk result (λ certificate. length certificate.nodes ≤ LONGEST_INPUT) }
    ensures bad { IfErr result (IfRefused (λ n. ChecksRewriting bytes.now (BadText n))) }
{
    let mut script = Script::new(bytes);
    let mut certificate = begun(alloc, &mut script)?;
    match nodes(alloc, &mut script, &mut certificate) {
        Ok(()) => Ok(certificate),
        Err(fail) => {
            drop(certificate);
            Err(fail)
        }
    }
}
