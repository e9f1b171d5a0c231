//! The numbers of a run's replies.

ghost use Rattle.std.specs.Prelude.{◌≡◌, ◌+◌, None, IfOk, OnOk};
ghost use Rattle.cqa_io.specs.Causes.{Rose};
ghost use Rattle.command_shell.specs.Parts.{ReplyRow};
ghost use Rattle.command_shell.specs.Demo.{rows_after, listed_rows};
ghost use Rattle.command_shell.specs.Tallying.{AddsReply};

use crate::answers::is_refused;
use crate::ending::Stop;
use crate::taker::Taker;
use cqa_value::NoMemory;
use reply_text::Reply;
use std::alloc::Global;

/// How many replies there were, how many rows those to `ask` and those to `possible` list, and how many are refusals.
#[derive(Clone, Copy, Debug, PartialEq, Eq)]
pub struct Tally {
    pub replies: u64,
    pub certain: u64,
    pub possible: u64,
    pub refused: u64,
}

impl Tally {
    /// The numbers of no reply.
    pub const fn new() -> Tally
        ensures { result ≡ record { replies = 0; certain = 0; possible = 0; refused = 0 } }
    {
        Tally {
            replies: 0,
            certain: 0,
            possible: 0,
            refused: 0,
        }
    }

    /// The numbers with one reply more, to a statement of this text.
    ///
    /// # Errors
    ///
    /// `NoMemory` where a number has no room in 64 bits.
    pub fn with(self, text: &[u8], reply: &Reply) -> Result<Tally, NoMemory>
        ensures { IfOk result (λ tally. AddsReply self text.now reply.now tally) }
    {
        Ok(Tally {
            replies: sum(self.replies, 1)?,
            certain: sum(self.certain, rows_after(b"ask ", text, reply))?,
            possible: sum(self.possible, rows_after(b"possible ", text, reply))?,
            refused: sum(self.refused, u64::from(is_refused(reply)))?,
        })
    }
}

/// The numbers take each reply, and write nothing.
impl Taker for Tally {
    ghost written = { λ _. None };

    ghost faults = { λ _. 0 };

    ghost took = { AddsReply };

    fn take(&mut self, _alloc: Global, text: &[u8], reply: &Reply) -> Result<bool, Stop>
        ensures row { ReplyRow result (Rose 0 0) None None reply.now }
        ensures took { OnOk result (AddsReply self.old text.now reply.now self.new) }
    {
        *self = self.with(text, reply)?;
        Ok(is_refused(reply))
    }
}

/// The sum of two numbers, where there is room for it.
fn sum(count: u64, more: u64) -> Result<u64, NoMemory>
    ensures { IfOk result (λ sum. sum ≡ count + more) }
{
    count.checked_add(more).ok_or(NoMemory)
}

/// How many rows a reply lists, if the text that it answers begins with a word.
fn rows_after(word: &[u8], text: &[u8], reply: &Reply) -> u64
    ensures { result ≡ rows_after word.now text.now reply.now }
{
    if text.starts_with(word) {
        listed_rows(reply)
    } else {
        0
    }
}

/// How many rows a reply lists.
fn listed_rows(reply: &Reply) -> u64
    ensures { result ≡ listed_rows reply.now }
{
    match reply {
        Reply::Rows(rows) => rows.len() as u64,
        _ => 0,
    }
}
