//! Which blocks have two or more rows.

ghost use Rattle.std.specs.Prelude.{◌≡◌, ◌++◌, ◌∷◌, List, [], IfOk, length};
ghost use Rattle.cqa_value.specs.declared.value.Value.{Value as Cell};
ghost use Rattle.range_ask.specs.Walking.{wide_of};

use cqa_value::NoMemory;

/// Notes the number of a block if it has two or more rows.
pub(crate) fn note(wide: &mut Vec<usize>, number: usize, rows: u32) -> Result<(), NoMemory>
    ensures { IfOk result (λ done. (front : List (List (List Cell))) (block : List (List Cell)) → wide.old.items ≡ wide_of front → number ≡ length front → rows ≡ length block → wide.new.items ≡ wide_of (front ++ block ∷ [])) }
{
    if rows > 1 {
        wide.push(number)?;
    }
    Ok(())
}
