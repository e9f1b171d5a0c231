//! The statements of a text that has ended, one after another.

ghost use Rattle.std.specs.Prelude.{◌≡◌, ◌≤◌, ◌+◌, IfOk, IfErr, MatchOption, length};
ghost use Rattle.cqa_model.specs.declared.limits.TheConstants.{LONGEST_INPUT};
ghost use Rattle.rewrite_check.specs.Reading.{IfRefused, IsAtEnd, IsDueAt, TakesText};

use cqa_value::Fail;
use script_lex::{Cut, cut};
use std::marker::Model;

/// The bytes that are left of a text, with the number of the statements before them.
#[derive(Drop)]
pub struct Script<'a> {
    bytes: &'a [u8],
    before: u32,
}

impl<'a> Model for Script<'a> {
    ghost use Rattle.std.specs.Prelude.{◌≤◌, ◌+◌, length};
    ghost use Rattle.cqa_model.specs.declared.limits.TheConstants.{LONGEST_INPUT};
    ghost use Rattle.rewrite_check.specs.Reading.{Position};

    ghost Value = { Position };

    ghost view = { λ s. record { bytes = s.bytes.now; before = s.before } };

    ghost invariant = { λ s. s.before + length s.bytes.now ≤ LONGEST_INPUT };
}

impl<'a> Script<'a> {
    /// A text from its first byte on.
    pub fn new(bytes: &'a [u8]) -> Script<'a>
        requires { length bytes.now ≤ LONGEST_INPUT }
        ensures { result ≡ record { bytes = bytes.now; before = 0 } }
    {
        Script { bytes, before: 0 }
    }

    /// How many statements were taken.
    pub fn before(&self) -> u32
        ensures is { result ≡ self.now.before }
        ensures few { result ≤ LONGEST_INPUT }
    {
        self.before
    }

    /// Takes the text of the next statement, if one follows.
    ///
    /// # Errors
    ///
    /// The number of the next statement where none follows, and more than blanks and comments are left.
    pub fn next_text(&mut self) -> Result<Option<&'a [u8]>, Fail<u32>>
        ensures taken { IfOk result (λ next. MatchOption next (IsAtEnd self.old × (self.new ≡ self.old)) (λ text. TakesText self.old text.now self.new)) }
        ensures broken { IfErr result (IfRefused (λ number. IsDueAt self.old number × (IsAtEnd self.old → ⊥))) }
        ensures few { self.new.before ≤ LONGEST_INPUT }
    {
        let bytes = self.bytes;
        match cut(bytes, true) {
            Cut::Statement { text, rest, .. } => {
                self.bytes = &bytes[rest..];
                self.before += 1;
                Ok(Some(&bytes[text.from..text.to]))
            }
            Cut::Blank => Ok(None),
            Cut::Part => Err(Fail::Refused(self.before + 1)),
        }
    }

    /// Takes the text of a statement that is due.
    ///
    /// # Errors
    ///
    /// Its number where none follows.
    pub fn due_text(&mut self) -> Result<&'a [u8], Fail<u32>>
        ensures taken { IfOk result (λ text. TakesText self.old text.now self.new) }
        ensures missing { IfErr result (IfRefused (IsDueAt self.old)) }
    {
        match self.next_text()? {
            Some(text) => Ok(text),
            None => Err(Fail::Refused(self.before + 1)),
        }
    }
}
