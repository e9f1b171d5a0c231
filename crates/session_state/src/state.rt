//! The state of a session: its tables, how many conflicts a search may take, and the log that was kept last.

ghost use Rattle.std.specs.Prelude.{◌≡◌, Some};
ghost use Rattle.std.specs.Option.{option_copied};
ghost use Rattle.session_state.specs.State.{opening_with, IsState};

use reply_text::Proof;
use std::alloc::Global;
use std::marker::Model;
use table_blocks::Database;

/// The state of a session: its tables, how many conflicts a search may take, and the last log with its formula.
#[derive(Drop)]
pub struct SessionState {
    pub(crate) database: Database,
    budget: u32,
    last_log: Option<Proof>,
}

impl Model for SessionState {
    ghost use Rattle.session_state.specs.State.{State, IsState};

    ghost Value = { State };

    ghost view = { λ s. record { tables = s.database; budget = s.budget; last_log = s.last_log } };

    ghost invariant = { λ s. IsState (record { tables = s.database; budget = s.budget; last_log = s.last_log }) };
}

impl SessionState {
    /// A state without tables.
    pub fn new(alloc: Global, budget: u32) -> SessionState
        ensures { result ≡ opening_with budget }
    {
        SessionState {
            database: Database::new(alloc),
            budget,
            last_log: None,
        }
    }

    /// The session's tables.
    pub fn database(&self) -> &Database
        ensures is { result.now ≡ self.now.tables }
        ensures state { IsState self.now }
    {
        &self.database
    }

    /// The log that was kept last, with its formula.
    pub(crate) fn last_log(&self) -> Option<&Proof>
        ensures { option_copied result ≡ self.now.last_log }
    {
        self.last_log.as_ref()
    }

    /// How many conflicts a search may take.
    pub fn budget(&self) -> u32
        ensures { result ≡ self.now.budget }
    {
        self.budget
    }

    /// Keeps a log with its formula as the last one.
    pub fn keep_log(&mut self, proof: Proof)
        ensures { self.new ≡ record self.old { last_log = Some proof } }
    {
        self.last_log = Some(proof);
    }

    /// Gives the searches that follow another budget.
    pub(crate) fn set_budget(&mut self, budget: u32)
        ensures { self.new ≡ record self.old { budget = budget } }
    {
        self.budget = budget;
    }
}
