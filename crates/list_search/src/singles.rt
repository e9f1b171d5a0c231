//! Rows that are numbered, each by a span of its own.

ghost use Rattle.std.specs.Prelude.{◌≡◌, ◌+◌, ◌++◌, ◌<◌, ◌^◌, IfOk, length};
ghost use Rattle.list_search.specs.Classing.{rows_from};

use cqa_value::NoMemory;
use row_lists::span::Span;

/// Numbers the rows of a slot at rising places, behind those that have numbers.
///
/// # Errors
///
/// `NoMemory` where memory is refused.
pub fn add_places(slot: u32, places: &[u32], numbered: &mut Vec<Span>) -> Result<(), NoMemory>
    requires { length numbered.old.items + length places.now < 2 ^ 32 }
    ensures { IfOk result (λ done. numbered.new.items ≡ numbered.old.items ++ rows_from slot (length numbered.old.items) places.now) }
{
    for place in places {
        numbered.push(Span {
            slot,
            start: *place,
            count: 1,
            base: numbered.len() as u32,
        })?;
    }
    Ok(())
}
