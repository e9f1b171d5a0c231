//! The script.

ghost use Rattle.std.specs.Prelude.{◌≡◌, ◌++◌, ◌+◌, ◌<◌, ◌≤◌, ◌^◌, IfOk, OnOk, length};
ghost use Rattle.std.specs.List.{flat_map, range_with_len};
ghost use Rattle.cqa_model.specs.declared.limits.TheConstants.{LONGEST_INPUT};
ghost use Rattle.case_maker.specs.Scripts.{lines_of, script_bytes};

use crate::lines::{Part, append_part};
use cqa_value::NoMemory;
use std::alloc::Global;

/// The greatest size of a script.
pub const GREATEST_SIZE: u32 = 100_000;

/// What stands before the first block.
const TABLES: &[u8] = b"create table person (id int, city int, primary key (id));
create table town (city int, zone int, primary key (city));
create table lhs (g int, x int, z int, primary key (g, x));
create table rhs (g int, y int, z int, primary key (g, y));
copy person;
";

/// What stands behind the last block.
const QUERIES: &[u8] = b"\\.
ask select id from person, town where person.city = town.city and zone = 1;
possible select id from person, town where person.city = town.city and zone = 1;
ask select lhs.g from lhs, rhs where lhs.g = rhs.g and lhs.z = rhs.z;
possible select lhs.g from lhs, rhs where lhs.g = rhs.g and lhs.z = rhs.z;
";

/// Appends what stands before a block, and the lines of its table for so many numbers, from one on.
fn append_block(
    head: &[u8],
    part: Part,
    first: u32,
    count: u32,
    out: &mut Vec<u8>,
) -> Result<(), NoMemory>
    requires { first + count < 2 ^ 32 }
    ensures { OnOk result (out.new.items ≡ (out.old.items ++ head.now) ++ flat_map (lines_of part) (range_with_len first count)) }
{
    out.extend_from_slice(head)?;
    append_part(part, first, count, out)
}

/// Appends the script of a size.
fn append_script(size: u32, out: &mut Vec<u8>) -> Result<(), NoMemory>
    requires { size ≤ GREATEST_SIZE }
    ensures { OnOk result (out.new.items ≡ out.old.items ++ script_bytes size) }
{
    append_block(TABLES, Part::Person, 1, size, out)?;
    append_block(b"\\.\ncopy town;\n", Part::Town, 0, 100, out)?;
    append_block(b"\\.\ncopy lhs;\n", Part::Lhs, 1, size, out)?;
    append_block(b"\\.\ncopy rhs;\n", Part::Rhs, 1, size, out)?;
    out.extend_from_slice(QUERIES)?;
    Ok(())
}

/// The script of a size: how many persons there are, and as many groups of the two other tables.
///
/// # Errors
///
/// `NoMemory` where memory is refused.
pub fn script_of(alloc: Global, size: u32) -> Result<Vec<u8>, NoMemory>
    requires some { 1 ≤ size }
    requires few { size ≤ GREATEST_SIZE }
    ensures text { IfOk result (λ text. text.items ≡ script_bytes size) }
    ensures short { IfOk result (λ text. length text.items ≤ LONGEST_INPUT) }
{
    let mut out = Vec::new(alloc);
    append_script(size, &mut out)?;
    Ok(out)
}
