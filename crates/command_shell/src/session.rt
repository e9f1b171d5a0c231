//! A session of the machine: its state, and the answer to one statement.

ghost use Rattle.std.specs.Prelude.{◌≡◌, ◌≤◌, IfOk, OnErr, Result, length};
ghost use Rattle.std.specs.Option.{option_copied};
ghost use Rattle.spj_syntax.specs.declared.tree.Statement.{Statement};
ghost use Rattle.refusals.specs.declared.refusal.Refusal.{Refusal as RefusalValue};
ghost use Rattle.cqa_model.specs.declared.limits.TheConstants.{LONGEST_INPUT};
ghost use Rattle.session_state.specs.State.{opening_with, IsState};
ghost use Rattle.command_shell.specs.Saying.{Says, SaysOneThing, SaysSomething};
ghost use Rattle.session_state.specs.Replying.{IsReplyOutcome};
ghost use Rattle.command_shell.specs.Machine.{Does, Step};

use crate::execute::execute;
use crate::reading::read;
use cqa_value::{Fail, NoMemory};
use refusals::Refusal;
use reply_text::Reply;
use session_state::SessionState;
use std::alloc::Global;
use std::marker::Model;
use table_blocks::Database;

/// The most conflicts of a search, where a script doesn't set them.
pub const CONFLICTS: u32 = 200_000;

/// A session of the machine.
#[derive(Drop)]
pub struct Session {
    state: SessionState,
}

impl Model for Session {
    ghost use Rattle.session_state.specs.State.{State};

    ghost Value = { State };

    ghost view = { λ s. s.state };
}

impl Session {
    /// A session without tables.
    pub fn new(alloc: Global, budget: u32) -> Session
        ensures { result ≡ opening_with budget }
    {
        Session {
            state: SessionState::new(alloc, budget),
        }
    }

    /// The session's tables.
    pub fn database(&self) -> &Database
        ensures is { result.now ≡ self.now.tables }
        ensures state { IsState self.now }
    {
        self.state.database()
    }

    /// Answers a statement: its text, and the block that follows a `copy`.
    ///
    /// # Errors
    ///
    /// `NoMemory` where memory is refused; nothing has changed then.
    pub fn run(
        &mut self,
        alloc: Global,
        text: &[u8],
        block: Option<&[u8]>,
    ) -> Result<Reply, NoMemory>
        requires { length text.now ≤ LONGEST_INPUT }
        ensures step { IfOk result (λ reply. Step self.old text.now (option_copied block.entry) reply self.new) }
        // What the text says decides the reply, unless memory runs out: a statement of which no check fails is done, and any other is refused.
        ensures complete { (said : Result Statement RefusalValue) → Says text.now said → IfOk result (λ reply. Does self.old said (option_copied block.entry) reply self.new) }
        ensures err { OnErr result (self.new ≡ self.old) }
    {
        step(alloc, &mut self.state, text, block)
    }
}

/// Makes a step: answers a statement, where a refusal is its reply, too.
fn step(
    alloc: Global,
    session: &mut SessionState,
    text: &[u8],
    block: Option<&[u8]>,
) -> Result<Reply, NoMemory>
    requires { length text.now ≤ LONGEST_INPUT }
    ensures step { IfOk result (λ reply. Step session.old text.now (option_copied block.entry) reply session.new) }
    ensures complete { (said : Result Statement RefusalValue) → Says text.now said → IfOk result (λ reply. Does session.old said (option_copied block.entry) reply session.new) }
    ensures err { OnErr result (session.new ≡ session.old) }
{
    match answer(alloc, session, text, block) {
        Ok(reply) => Ok(reply),
        Err(Fail::Refused(refusal)) => Ok(Reply::Refused(refusal)),
        Err(Fail::NoMemory) => Err(NoMemory),
    }
}

/// Answers a statement, or refuses it.
fn answer(
    alloc: Global,
    session: &mut SessionState,
    text: &[u8],
    block: Option<&[u8]>,
) -> Result<Reply, Fail<Refusal>>
    requires { length text.now ≤ LONGEST_INPUT }
    ensures { IsReplyOutcome result session.old (Step session.old text.now (option_copied block.entry)) session.new }
{
    let statement = read(alloc, text)?;
    execute(alloc, session, statement, block)
}

/// A text says at most one thing: one statement, or the one refusal of its form.
pub fn text_says_one_thing()
    ensures { SaysOneThing }
{}

/// A text says something.
pub fn text_says_something()
    ensures { SaysSomething }
{}
