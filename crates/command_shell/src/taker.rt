//! What replies are handed to, one after another.

ghost use Rattle.std.specs.Prelude.{◌≤◌, ℕ, List, Option, OnOk, ⊤};
ghost use Rattle.cqa_io.specs.Causes.{Rose};
ghost use Rattle.reply_text.specs.declared.reply.Reply.{Reply as ReplyValue};
ghost use Rattle.command_shell.specs.Parts.{ReplyRow};

use crate::answers::is_refused;
use crate::ending::Stop;
use cqa_io::{Sink, write_all};
use reply_text::{Reply, reply_bytes};
use std::alloc::Global;

/// What takes the replies to the statements of an input, one after another.
pub trait Taker {
    /// The bytes that it has written, where it tells them.
    ghost written: { Self → Option (List ℕ) };

    /// How often a write has failed. A count that stands at its last value may stay there.
    ghost faults: { Self → ℕ };

    /// What more is known of a reply that it took: the taker before it, the text of its statement,
    /// the reply, and the taker after it.
    ghost took: { Self → List ℕ → ReplyValue → Self → Type 0 } = { λ _ _ _ _. ⊤ };

    /// Takes the reply to a statement of this text, and says whether it is a refusal.
    ///
    /// # Errors
    ///
    /// `Stop::WriteFault` where a write fails, and `Stop::OutOfMemory` where memory is refused or a
    /// number has no room.
    fn take(&mut self, alloc: Global, text: &[u8], reply: &Reply) -> Result<bool, Stop>
        ensures row { ReplyRow result (Rose (faults self.old) (faults self.new)) (written self.old) (written self.new) reply.now }
        ensures later { faults self.old ≤ faults self.new }
        ensures took { OnOk result (took self.old text.now reply.now self.new) };
}

/// A sink takes the text of each reply.
impl<K: Sink> Taker for K {
    ghost written = { K.held };

    ghost faults = { K.faults };

    fn take(&mut self, alloc: Global, _text: &[u8], reply: &Reply) -> Result<bool, Stop>
        ensures row { ReplyRow result (Rose (K.faults self.old) (K.faults self.new)) (K.held self.old) (K.held self.new) reply.now }
        ensures later { K.faults self.old ≤ K.faults self.new }
    {
        // The script of a dump and a certificate are written as they are, so that they aren't held twice.
        if let Reply::Dumped(script) | Reply::Certificate(script) = reply {
            write_all(self, script.as_slice())?;
            return Ok(false);
        }
        let bytes = reply_bytes(alloc, reply)?;
        write_all(self, bytes.as_slice())?;
        Ok(is_refused(reply))
    }
}
