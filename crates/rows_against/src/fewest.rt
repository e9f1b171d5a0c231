//! Few of the rows that hit witnesses, by their numbers: each witness is hit, and each of the rows is needed for that.
//! The witnesses are gone through by the greatest numbers that hit them. One that isn't hit yet takes that one, so a number
//! that is taken later hits no witness that a number was taken for.

ghost use Rattle.std.specs.Prelude.{◌<◌, ◌↔◌, ℕ, [], IfOk, IsTrue, length, slice_index_or};
ghost use Rattle.std.specs.List.Sorted.{IsNonDecreasingBy};
ghost use Rattle.rows_against.specs.Fewest.{AreFewest, AreLastHits, AreWide, HasHit, IsHitAmong, IsLastHit};

use cqa_value::{Items, NoMemory};
use std::alloc::Global;

/// The greatest number that hits a witness.
#[derive(Clone, Copy)]
struct LastHit {
    number: usize,
    witness: usize,
}

/// The greatest number that hits a witness.
fn last_hit(hits: &[Items<Option<usize>>], witness: usize) -> usize
    requires wide { (F : ℕ) → F < length hits.now → witness < length (slice_index_or hits.now F []) }
    requires hit { (number : ℕ) × HasHit hits.now witness number }
    ensures { IsLastHit hits.now witness result }
{
    let mut last = 0;
    for atom in hits {
        if let Some(number) = atom.as_slice()[witness] {
            last = last.max(number);
        }
    }
    last
}

/// The greatest numbers that hit witnesses, in rising order.
fn last_hits(
    alloc: Global,
    hits: &[Items<Option<usize>>],
    witnesses: usize,
) -> Result<Vec<LastHit>, NoMemory>
    requires wide { AreWide hits.now witnesses }
    requires hit { (witness : ℕ) → witness < witnesses → (number : ℕ) × HasHit hits.now witness number }
    ensures all { IfOk result (λ lasts. AreLastHits hits.now witnesses lasts.items) }
    ensures rising { IfOk result (λ lasts. IsNonDecreasingBy (λ last. last.number) lasts.items) }
{
    let mut lasts = Vec::with_capacity(alloc, witnesses)?;
    for witness in 0..witnesses {
        let number = last_hit(hits, witness);
        lasts.push(LastHit { number, witness })?;
    }
    lasts.sort_unstable_by(|one, other| one.number.cmp(&other.number));
    Ok(lasts)
}

/// Whether a number that is marked hits a witness.
fn is_hit(hits: &[Items<Option<usize>>], marks: &[bool], witness: usize) -> bool
    requires wide { (F : ℕ) → F < length hits.now → witness < length (slice_index_or hits.now F []) }
    requires below { (number : ℕ) → HasHit hits.now witness number → number < length marks.now }
    ensures { IsTrue result ↔ IsHitAmong hits.now marks.now witness }
{
    for atom in hits {
        if let Some(number) = atom.as_slice()[witness] {
            if marks[number] {
                return true;
            }
        }
    }
    false
}

/// Few of so many numbers, in rising order, such that each witness is hit by one of them.
///
/// # Errors
///
/// `NoMemory` where memory is refused.
pub(crate) fn fewest(
    alloc: Global,
    hits: &[Items<Option<usize>>],
    witnesses: usize,
    numbers: usize,
) -> Result<Vec<usize>, NoMemory>
    requires wide { AreWide hits.now witnesses }
    requires hit { (witness : ℕ) → witness < witnesses → (number : ℕ) × HasHit hits.now witness number }
    requires below { (witness number : ℕ) → witness < witnesses → HasHit hits.now witness number → number < numbers }
    ensures { IfOk result (λ kept. AreFewest hits.now witnesses kept.items) }
{
    let lasts = last_hits(alloc, hits, witnesses)?;
    let mut marks = vec![in alloc; false; numbers]?;
    let mut kept = Vec::new(alloc);
    for last in lasts.as_slice() {
        if is_hit(hits, marks.as_slice(), last.witness) {
            continue;
        }
        marks[last.number] = true;
        kept.push(last.number)?;
    }
    Ok(kept)
}
