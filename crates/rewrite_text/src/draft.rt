//! A certificate that is being written: its text so far, and whether it is too long.

ghost use Rattle.std.specs.Prelude.{◌≡◌, ◌⊎◌, ◌<◌, ◌≤◌, ◌+◌, ◌++◌, IfErr, IfOk, OnOk, codes, length};
ghost use Rattle.script_lex.specs.declared.lexer.TheConstants.{LONGEST_TEXT};
ghost use Rattle.rewrite_text.specs.Texts.{first_line};
ghost use Rattle.rewrite_text.specs.Drafts.{IsBetween, Overruns, RefusesBy};

use cqa_value::{Fail, Items, NoMemory};
use script_lex::LONGEST_TEXT;
use std::alloc::Global;

/// The most bytes of a certificate.
pub const LONGEST_CERTIFICATE: usize = 16_777_216;

/// A statement of a certificate has more than `LONGEST_TEXT` bytes, or the certificate more than `LONGEST_CERTIFICATE`.
#[derive(Clone, Copy, Debug, PartialEq, Eq)]
pub struct TooLong;

/// The text so far, and the place in it where its last statement begins.
#[derive(Drop)]
pub struct Draft {
    pub out: Vec<u8>,
    pub start: usize,
}

impl Draft {
    /// A certificate's first line.
    pub fn new(alloc: Global) -> Result<Draft, NoMemory>
        ensures line { IfOk result (λ draft. draft.out.items ≡ first_line) }
        ensures between { IfOk result IsBetween }
    {
        let mut out = Vec::new(alloc);
        out.extend_from_slice(b"rewriting\n")?;
        let start = out.len();
        Ok(Draft { out, start })
    }

    /// Refuses a text that is too long, or whose last statement is.
    pub fn check(&self) -> Result<(), Fail<TooLong>>
        ensures within { OnOk result (Overruns self.now.out.items self.now.start → ⊥) }
        ensures over { IfErr result (RefusesBy (Overruns self.now.out.items self.now.start)) }
    {
        let len = self.out.len();
        if len.saturating_sub(self.start) > LONGEST_TEXT || len > LONGEST_CERTIFICATE {
            return Err(Fail::Refused(TooLong));
        }
        Ok(())
    }

    /// Ends a statement.
    pub fn end(&mut self) -> Result<(), Fail<TooLong>>
        ensures text { OnOk result (self.new.out.items ≡ self.old.out.items ++ codes ";\n") }
        ensures between { OnOk result (IsBetween self.new) }
        ensures short { OnOk result (length self.old.out.items ≤ self.old.start + LONGEST_TEXT) }
        ensures whole { OnOk result (length self.new.out.items ≤ LONGEST_CERTIFICATE) }
        ensures over { IfErr result (RefusesBy (Overruns self.old.out.items self.old.start ⊎ (LONGEST_CERTIFICATE < length (self.old.out.items ++ codes ";\n")))) }
    {
        self.check()?;
        self.out.extend_from_slice(b";\n")?;
        self.start = self.out.len();
        self.check()
    }

    /// The text.
    pub fn into_text(self) -> Items<u8>
        ensures { result ≡ self.out.items }
    {
        let Draft { out, start: _ } = self;
        Items::from_vec(out)
    }
}
