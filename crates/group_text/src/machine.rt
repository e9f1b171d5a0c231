//! The machine over lines.

ghost use Rattle.std.specs.Prelude.{◌≡◌, ◌+◌, ◌-◌, ◌^◌, ◌<◌, ◌∷◌, [], Err, IfOk, Ok};
ghost use Rattle.cnf_form.specs.Lines.{line_of, tokens};
ghost use Rattle.group_text.specs.declared.fault.Fault.TheVariants.{LongLine};
ghost use Rattle.group_text.specs.Groups.{left_open};
ghost use Rattle.group_text.specs.Groups.Event.{Refuse};
ghost use Rattle.group_text.specs.Groups.Underway.{Outside, Passing};
ghost use Rattle.group_text.specs.Machines.{Steps, numbered};
ghost use Rattle.group_text.specs.Replies.{Appends};
ghost use Rattle.group_text.specs.Saying.{said};
ghost use Rattle.group_text.specs.Saying.Said.{Begins, Lists, Ends, Faulty};
ghost use Rattle.group_text.specs.Sizes.{sizes_of};

use crate::group::Group;
use crate::judging::reply_wanted;
use crate::reading::{Saying, read_line};
use crate::reply::append_refused;
use crate::{Fault, Wanted};
use block_choices::BlockRow;
use block_lists::Room;
use cqa_value::NoMemory;
use std::alloc::Global;
use std::marker::Model;

/// Where one stands between two lines.
#[derive(Clone, Copy, Debug, PartialEq, Eq)]
pub enum Place {
    /// Outside a group.
    Outside,
    /// Within one.
    Within,
    /// In the rest of one that was refused.
    Passing,
}

/// The machine over lines: it judges each group as soon as its end has come, and refuses what is faulty. Its room is used again
/// for each group.
#[derive(Drop)]
pub struct Machine {
    wanted: Wanted,
    budget: u32,
    number: u64,
    place: Place,
    group: Group,
    rows: Vec<BlockRow>,
    room: Room,
}

impl Model for Machine {
    ghost use Rattle.group_text.specs.Machines.{Standing, underway_at};

    ghost Value = { Standing };

    ghost view = { λ m. record { wanted = m.wanted; budget = m.budget; number = m.number; underway = underway_at m.place m.group } };
}

impl Machine {
    /// A machine before the first line, for what is wanted of each group. A search for a verdict has at most `budget` conflicts, and
    /// one for a least or a greatest value looks at no more than `budget` lists.
    pub fn new(alloc: Global, wanted: Wanted, budget: u32) -> Machine
        ensures { result ≡ record { wanted = wanted; budget = budget; number = 0; underway = Outside } }
    {
        Machine {
            wanted,
            budget,
            number: 0,
            place: Place::Outside,
            group: Group::new(alloc),
            rows: Vec::new(alloc),
            room: Room::new(alloc),
        }
    }

    /// Refuses a group that isn't ended, and says whether there is one.
    fn leave_open(&self, out: &mut Vec<u8>) -> Result<bool, NoMemory>
        ensures { IfOk result (λ refused. Appends self.now.wanted self.now.budget (left_open self.now.number self.now.underway) refused out.old.items out.new.items) }
    {
        match self.place {
            Place::Within => {
                append_refused(self.number, Fault::Unfinished, out)?;
                Ok(true)
            }
            Place::Outside | Place::Passing => Ok(false),
        }
    }

    /// Begins a group of the sizes that the tokens of a line tell.
    fn begin(&mut self, line: &[u8], out: &mut Vec<u8>) -> Result<bool, NoMemory>
        ensures { IfOk result (λ refused. Steps (Begins (sizes_of (tokens (line_of line.now)))) self.old self.new refused out.old.items out.new.items) }
    {
        let open = self.leave_open(out)?;
        match self.group.begin(line)? {
            Ok(()) => {
                self.place = Place::Within;
                Ok(open)
            }
            Err(fault) => {
                let refused = self.refuse(fault, out)?;
                Ok(open | refused)
            }
        }
    }

    /// Refuses a line that is too long and begins a group.
    fn begin_long(&mut self, out: &mut Vec<u8>) -> Result<bool, NoMemory>
        ensures { IfOk result (λ refused. Steps (Begins (Err LongLine)) self.old self.new refused out.old.items out.new.items) }
    {
        let open = self.leave_open(out)?;
        let refused = self.refuse(Fault::LongLine, out)?;
        Ok(open | refused)
    }

    /// Refuses a line by a fault, and passes over what follows.
    fn refuse(&mut self, fault: Fault, out: &mut Vec<u8>) -> Result<bool, NoMemory>
        ensures { IfOk result (λ refused. (self.new ≡ record self.old { underway = Passing }) × Appends self.old.wanted self.old.budget (Refuse self.old.number fault ∷ []) refused out.old.items out.new.items) }
    {
        self.place = Place::Passing;
        append_refused(self.number, fault, out)?;
        Ok(true)
    }

    /// Adds the list whose rows the tokens of a line name.
    fn add(&mut self, line: &[u8], out: &mut Vec<u8>) -> Result<bool, NoMemory>
        ensures { IfOk result (λ refused. Steps (Lists (tokens (line_of line.now))) self.old self.new refused out.old.items out.new.items) }
    {
        match self.place {
            Place::Outside => self.refuse(Fault::NoGroup, out),
            Place::Passing => Ok(false),
            Place::Within => match self.group.add(self.wanted, line, &mut self.rows)? {
                Ok(()) => Ok(false),
                Err(fault) => self.refuse(fault, out),
            },
        }
    }

    /// Ends a group.
    fn end_group(&mut self, alloc: Global, out: &mut Vec<u8>) -> Result<bool, NoMemory>
        ensures { IfOk result (λ refused. Steps Ends self.old self.new refused out.old.items out.new.items) }
    {
        match self.place {
            Place::Outside => self.refuse(Fault::NoGroup, out),
            Place::Passing => {
                self.place = Place::Outside;
                Ok(false)
            }
            Place::Within => {
                self.place = Place::Outside;
                reply_wanted(
                    alloc,
                    self.wanted,
                    &self.group,
                    self.budget,
                    self.number,
                    &mut self.room,
                    out,
                )
            }
        }
    }

    /// Refuses a line that is faulty by itself, unless the group is refused already.
    fn fault(&mut self, fault: Fault, out: &mut Vec<u8>) -> Result<bool, NoMemory>
        ensures { IfOk result (λ refused. Steps (Faulty fault) self.old self.new refused out.old.items out.new.items) }
    {
        match self.place {
            Place::Passing => Ok(false),
            Place::Outside | Place::Within => self.refuse(fault, out),
        }
    }

    /// Takes a line, appends what is replied to it, and says whether something is refused.
    ///
    /// # Errors
    ///
    /// `NoMemory` where memory is refused.
    pub fn line(&mut self, alloc: Global, line: &[u8], out: &mut Vec<u8>) -> Result<bool, NoMemory>
        requires whole { line_of line.now ≡ line.now }
        requires room { self.old.number < 2 ^ 64 - 1 }
        ensures { IfOk result (λ refused. Steps (said line.now) (numbered self.old) self.new refused out.old.items out.new.items) }
    {
        self.number += 1;
        match read_line(line) {
            Saying::Skipped => Ok(false),
            Saying::Begins(rest) => self.begin(rest, out),
            Saying::BeginsLong => self.begin_long(out),
            Saying::List(rest) => self.add(rest, out),
            Saying::Ends => self.end_group(alloc, out),
            Saying::Faulty(fault) => self.fault(fault, out),
        }
    }

    /// At the end of the input a group that isn't ended is refused, by the number of the line behind the last.
    ///
    /// # Errors
    ///
    /// `NoMemory` where memory is refused.
    pub fn end(&mut self, out: &mut Vec<u8>) -> Result<bool, NoMemory>
        requires { self.old.number < 2 ^ 64 - 1 }
        ensures { IfOk result (λ refused. Appends self.old.wanted self.old.budget (left_open (self.old.number + 1) self.old.underway) refused out.old.items out.new.items) }
    {
        self.number += 1;
        self.leave_open(out)
    }
}
