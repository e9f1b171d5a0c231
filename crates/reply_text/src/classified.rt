//! Appends the class of a query and its attacks.

ghost use Rattle.std.specs.Prelude.{◌≡◌, ◌++◌, OnOk, codes};
ghost use Rattle.std.specs.List.{flat_map};
ghost use Rattle.reply_text.specs.Texts.{attack_text, class_text, classified_text, strength_text};

use crate::AttackLine;
use crate::append::{append_named, append_words};
use complexity_class::Class;
use cqa_value::NoMemory;

/// Appends the class of a query, and a line for each attack.
pub fn append_classified(
    class: Class,
    lines: &[AttackLine],
    out: &mut Vec<u8>,
) -> Result<(), NoMemory>
    ensures { OnOk result (out.new.items ≡ out.old.items ++ classified_text class lines.now) }
{
    append_words("class ", out)?;
    append_words(class_word(class), out)?;
    append_attacks(lines, out)
}

fn class_word(class: Class) -> &'static str
    ensures { result.now ≡ class_text class }
{
    match class {
        Class::FirstOrder => "first-order",
        Class::Polynomial => "polynomial",
        Class::CoNp => "conp-complete",
    }
}

/// Appends each attack on a new line.
fn append_attacks(lines: &[AttackLine], out: &mut Vec<u8>) -> Result<(), NoMemory>
    ensures { OnOk result (out.new.items ≡ out.old.items ++ flat_map (λ line. codes "\n" ++ attack_text line) lines.now) }
{
    for line in lines {
        append_attack(line, out)?;
    }
    Ok(())
}

/// Appends an attack on a new line.
fn append_attack(line: &AttackLine, out: &mut Vec<u8>) -> Result<(), NoMemory>
    ensures { OnOk result (out.new.items ≡ out.old.items ++ (codes "\n" ++ attack_text line.now)) }
{
    append_named("\n", &line.from, out)?;
    append_named(" attacks ", &line.to, out)?;
    append_words(strength_words(line.weak), out)
}

fn strength_words(weak: bool) -> &'static str
    ensures { result.now ≡ strength_text weak }
{
    if weak { ", weak" } else { ", strong" }
}
