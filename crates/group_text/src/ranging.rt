//! The least and the greatest value of a group.

ghost use Rattle.std.specs.Prelude.{◌∷◌, [], IfOk};
ghost use Rattle.group_text.specs.declared.wanted.Wanted.TheVariants.{Ranges};
ghost use Rattle.choice_values.specs.Values.{IsLeast};
ghost use Rattle.group_text.specs.Groups.{Draft};
ghost use Rattle.group_text.specs.Groups.Event.{Judge};
ghost use Rattle.group_text.specs.Replies.{Appends};

use crate::Fault;
use crate::group::Group;
use crate::reply::{append_between, append_refused};
use choice_values::Best;
use cqa_value::NoMemory;
use std::alloc::Global;

/// Refuses a group whose search gave up, unless memory was refused.
fn reply_fault(
    fault: choice_values::Fault,
    budget: u32,
    line: u64,
    out: &mut Vec<u8>,
) -> Result<bool, NoMemory>
    ensures { (d : Draft) → IfOk result (λ refused. Appends Ranges budget (Judge line d ∷ []) refused out.old.items out.new.items) }
{
    match fault {
        choice_values::Fault::NoMemory => Err(NoMemory),
        choice_values::Fault::Spent => {
            append_refused(line, Fault::Overworked(budget), out)?;
            Ok(true)
        }
    }
}

/// The reply to a group of this least value.
fn reply_from(
    alloc: Global,
    group: &Group,
    least: &Best,
    budget: u32,
    line: u64,
    out: &mut Vec<u8>,
) -> Result<bool, NoMemory>
    requires { IsLeast group.now.sizes group.now.lists least.now }
    ensures { IfOk result (λ refused. Appends Ranges budget (Judge line group.now ∷ []) refused out.old.items out.new.items) }
{
    match group.greatest(alloc, budget) {
        Err(fault) => reply_fault(fault, budget, line, out),
        Ok(greatest) => {
            let appended = append_between(least, &greatest, out);
            drop(greatest);
            appended?;
            Ok(false)
        }
    }
}

/// Finds the least and the greatest value of a group, appends the reply, and says whether it is a refusal, of the line of this
/// number. Each search looks at no more than `budget` lists.
///
/// # Errors
///
/// `NoMemory` where memory is refused.
pub fn reply_range(
    alloc: Global,
    group: &Group,
    budget: u32,
    line: u64,
    out: &mut Vec<u8>,
) -> Result<bool, NoMemory>
    ensures { IfOk result (λ refused. Appends Ranges budget (Judge line group.now ∷ []) refused out.old.items out.new.items) }
{
    match group.least(alloc, budget) {
        Err(fault) => reply_fault(fault, budget, line, out),
        Ok(least) => {
            let replied = reply_from(alloc, group, &least, budget, line, out);
            drop(least);
            replied
        }
    }
}
