//! An input that comes in pieces, cut into statements while it comes.
//! Each piece is looked at once, when it is fed; what was found is known from then on.

ghost use Rattle.std.specs.Prelude.{◌≡◌, ◌≤◌, ◌++◌, [], length, drop, OnOk, OnErr};
ghost use Rattle.script_lex.specs.Progress.{Holds};
ghost use Rattle.script_lex.specs.Scripts.{IsCut};

use crate::Cut;
use crate::scan::{Known, cut_on};
use cqa_value::NoMemory;
use std::alloc::Global;
use std::marker::Model;

/// The bytes of a script that were fed and haven't been taken yet.
///
/// Feeding, looking and taking cost time that grows with the bytes fed, in pieces of any size.
#[derive(Drop)]
pub struct Cutter {
    held: Vec<u8>,
    taken: usize,
    known: Known,
}

impl Model for Cutter {
    ghost use Rattle.std.specs.Prelude.{List, ℕ, ◌≤◌, drop, length};
    ghost use Rattle.script_lex.specs.Progress.{Holds};

    ghost Value = { List ℕ };

    ghost view = { λ c. drop c.taken c.held.items };

    ghost invariant = { λ c. (c.taken ≤ length c.held.items) × Holds (drop c.taken c.held.items) c.known };
}

/// Takes the first bytes away.
fn drop_front(held: &mut Vec<u8>, count: usize)
    requires { count ≤ length held.old.items }
    ensures { held.new.items ≡ drop count held.old.items }
{
    let rest = held.len() - count;
    held.copy_within(count.., 0);
    held.truncate(rest);
}

/// Lets the taken bytes go where they are half of those held or more, so that each byte is moved at most once for each that was taken.
fn let_go(held: &mut Vec<u8>, taken: &mut usize)
    requires { taken.old ≤ length held.old.items }
    ensures within { taken.new ≤ length held.new.items }
    ensures rest { drop taken.new held.new.items ≡ drop taken.old held.old.items }
{
    if *taken >= held.len() - *taken {
        drop_front(held, *taken);
        *taken = 0;
    }
}

/// Looks at the bytes that haven't been looked at yet.
fn look_on(bytes: &[u8], known: &mut Known)
    requires { Holds bytes.now known.old }
    ensures { Holds bytes.now known.new }
{
    let _ = cut_on(bytes, false, known);
}

impl Cutter {
    /// A cutter that holds nothing. It takes no memory.
    pub fn new(alloc: Global) -> Cutter
        ensures { result ≡ [] }
    {
        Cutter {
            held: Vec::new(alloc),
            taken: 0,
            known: Known::new(),
        }
    }

    /// Appends a piece.
    ///
    /// # Errors
    ///
    /// `NoMemory` where memory is refused; the bytes stay as they were then.
    pub fn feed(&mut self, piece: &[u8]) -> Result<(), NoMemory>
        ensures ok { OnOk result (self.new ≡ self.old ++ piece.now) }
        ensures err { OnErr result (self.new ≡ self.old) }
    {
        let_go(&mut self.held, &mut self.taken);
        self.held.extend_from_slice(piece)?;
        look_on(&self.held[self.taken..], &mut self.known);
        Ok(())
    }

    /// What stands first in the bytes, as [`cut`](crate::cut) finds it; spans and the rest are places in them.
    pub fn look(&self, at_end: bool) -> Cut
        ensures { IsCut at_end self.now result }
    {
        let mut known = self.known;
        cut_on(&self.held[self.taken..], at_end, &mut known)
    }

    /// The bytes that are held.
    pub fn bytes(&self) -> &[u8]
        ensures { result.now ≡ self.now }
    {
        &self.held[self.taken..]
    }

    /// Takes the first bytes away.
    pub fn skip(&mut self, count: usize)
        requires { count ≤ length self.old }
        ensures { self.new ≡ drop count self.old }
    {
        self.taken += count;
        self.known = Known::new();
        look_on(&self.held[self.taken..], &mut self.known);
    }
}
