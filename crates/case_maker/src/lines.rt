//! The lines of the script's blocks.

ghost use Rattle.std.specs.Prelude.{◌≡◌, ◌++◌, ◌+◌, ◌<◌, ◌^◌, OnOk};
ghost use Rattle.std.specs.List.{flat_map, range_with_len};
ghost use Rattle.case_maker.specs.declared.lines.Part.TheVariants.{Person, Rhs, Town};
ghost use Rattle.case_maker.specs.Scripts.{lines_of, pair_line, triple_line};

use cqa_value::NoMemory;
use itoa::Buffer;

/// A table of the script.
#[derive(Clone, Copy, Debug, PartialEq, Eq)]
pub enum Part {
    Person,
    Town,
    Lhs,
    Rhs,
}

/// Appends a line of two numbers.
fn append_pair(first: u32, second: u32, out: &mut Vec<u8>) -> Result<(), NoMemory>
    ensures { OnOk result (out.new.items ≡ out.old.items ++ pair_line first second) }
{
    let mut buffer = Buffer::new();
    out.extend_from_slice(buffer.format(first).as_bytes())?;
    out.push(b',')?;
    let mut buffer = Buffer::new();
    out.extend_from_slice(buffer.format(second).as_bytes())?;
    out.push(b'\n')?;
    Ok(())
}

/// Appends a line of three numbers.
fn append_triple(first: u32, second: u32, third: u32, out: &mut Vec<u8>) -> Result<(), NoMemory>
    ensures { OnOk result (out.new.items ≡ out.old.items ++ triple_line first second third) }
{
    let mut buffer = Buffer::new();
    out.extend_from_slice(buffer.format(first).as_bytes())?;
    out.push(b',')?;
    append_pair(second, third, out)
}

/// Appends the lines of a person: every fourth has two cities.
fn append_person(number: u32, out: &mut Vec<u8>) -> Result<(), NoMemory>
    ensures { OnOk result (out.new.items ≡ out.old.items ++ lines_of Person number) }
{
    append_pair(number, number % 100, out)?;
    if number % 4 == 1 {
        return append_pair(number, 100, out);
    }
    Ok(())
}

/// Appends the lines of a town: every second has two zones.
fn append_town(number: u32, out: &mut Vec<u8>) -> Result<(), NoMemory>
    ensures { OnOk result (out.new.items ≡ out.old.items ++ lines_of Town number) }
{
    append_pair(number, 1, out)?;
    if number % 2 == 0 {
        return append_pair(number, 2, out);
    }
    Ok(())
}

/// Appends two lines of a group.
fn append_two(
    group: u32,
    first: (u32, u32),
    second: (u32, u32),
    out: &mut Vec<u8>,
) -> Result<(), NoMemory>
    ensures { OnOk result (out.new.items ≡ out.old.items ++ (triple_line group first.0 first.1 ++ triple_line group second.0 second.1)) }
{
    append_triple(group, first.0, first.1, out)?;
    append_triple(group, second.0, second.1, out)
}

/// Appends the lines of a group of the right table, which match both rows of the left one, one of them or none.
fn append_right(group: u32, out: &mut Vec<u8>) -> Result<(), NoMemory>
    ensures { OnOk result (out.new.items ≡ out.old.items ++ lines_of Rhs group) }
{
    match group % 3 {
        0 => append_two(group, (1, 0), (2, 1), out),
        1 => append_two(group, (1, 0), (1, 1), out),
        _ => append_triple(group, 1, 2, out),
    }
}

/// Appends the lines of a table for one number.
fn append_lines(part: Part, number: u32, out: &mut Vec<u8>) -> Result<(), NoMemory>
    ensures { OnOk result (out.new.items ≡ out.old.items ++ lines_of part number) }
{
    match part {
        Part::Person => append_person(number, out),
        Part::Town => append_town(number, out),
        Part::Lhs => append_two(number, (1, 0), (1, 1), out),
        Part::Rhs => append_right(number, out),
    }
}

/// Appends the lines of a table for so many numbers, from one on.
pub fn append_part(part: Part, first: u32, count: u32, out: &mut Vec<u8>) -> Result<(), NoMemory>
    requires { first + count < 2 ^ 32 }
    ensures { OnOk result (out.new.items ≡ out.old.items ++ flat_map (lines_of part) (range_with_len first count)) }
{
    for at in 0..count {
        append_lines(part, first + at, out)?;
    }
    Ok(())
}
