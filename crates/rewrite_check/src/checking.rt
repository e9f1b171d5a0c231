//! A certificate, checked.

ghost use Rattle.std.specs.Prelude.{◌≡◌, ◌≤◌, IfOk, length};
ghost use Rattle.cqa_model.specs.Query.{FitsDatabase};
ghost use Rattle.cqa_model.specs.declared.limits.TheConstants.{LONGEST_INPUT};
ghost use Rattle.block_tree.specs.declared.cause.RewriteCheck.{RewriteCheck as Reply};
ghost use Rattle.block_tree.specs.declared.cause.RewriteCheck.TheVariants.{Verified};
ghost use Rattle.block_tree.specs.Trees.{IsOrderOf};
ghost use Rattle.block_tree.specs.Judging.{Judged};
ghost use Rattle.rewrite_check.specs.Spelling.{ChecksRewriting};
ghost use Rattle.rewrite_check.specs.Laws.{ShowsCertain};

use crate::certificate::Certificate;
use crate::reading::read;
use block_check::judge_blocks;
use block_tree::RewriteCheck;
use cqa_value::{Fail, NoMemory};
use std::alloc::Global;
use table_blocks::Bound;

/// What is said of the blocks of a certificate.
fn judged(alloc: Global, certificate: &Certificate) -> Result<RewriteCheck, NoMemory>
    requires fits { FitsDatabase certificate.now.query certificate.now.tables }
    requires order { IsOrderOf certificate.now.query certificate.now.order }
    requires few { length certificate.now.nodes ≤ LONGEST_INPUT }
    ensures { IfOk result (Judged certificate.now.query certificate.now.row certificate.now.order certificate.now.nodes) }
{
    let bound = Bound::new(&certificate.tables, &certificate.query);
    judge_blocks(
        alloc,
        &bound,
        certificate.order.as_slice(),
        &certificate.row,
        certificate.nodes.as_slice(),
    )
}

/// What is said of the text of a certificate: the bytes behind its first line.
///
/// # Errors
///
/// `NoMemory` where memory is refused.
pub fn check_rewriting(alloc: Global, bytes: &[u8]) -> Result<RewriteCheck, NoMemory>
    requires { length bytes.now ≤ LONGEST_INPUT }
    // The text's certificate passes, or this is its first bad statement, or else its first bad block.
    ensures exact { IfOk result (ChecksRewriting bytes.now) }
    // No other answer is right.
    ensures only { (reply : Reply) → ChecksRewriting bytes.now reply → IfOk result (λ r. r ≡ reply) }
    // Where it is verified, its row is certain in every database whose tables have the schemas that are written, and that has the blocks.
    ensures sound { IfOk result (λ r. r ≡ Verified → ShowsCertain bytes.now) }
{
    match read(alloc, bytes) {
        Ok(certificate) => {
            let said = judged(alloc, &certificate);
            drop(certificate);
            said
        }
        Err(Fail::Refused(statement)) => Ok(RewriteCheck::BadText { statement }),
        Err(Fail::NoMemory) => Err(NoMemory),
    }
}
