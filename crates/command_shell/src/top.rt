//! The top call: from words and bytes to a status.

ghost use Rattle.std.specs.Prelude.{◌≡◌, ◌≤◌, ◌∷◌, [], ℕ, Option, Some, MatchOption, codes};
ghost use Rattle.cqa_io.specs.Causes.{Rose};
ghost use Rattle.session_state.specs.State.{opening, State};
ghost use Rattle.command_shell.specs.declared.ending.Command.TheVariants.{Check as CheckWord, Demo as DemoWord};
ghost use Rattle.command_shell.specs.Top.{code_of, StandFor, AreWordsFor, IsAskedBy, told, Ended, IsWithinLimit, IsCompleted};

use crate::demo::{demo, size_of};
use crate::ending::{Command, Ending, ReadEnd, code};
use crate::input::read_all;
use crate::judging::{MOST_WORK, budget_of, judge};
use crate::pieces::run;
use crate::session::{CONFLICTS, Session};
use crate::verdict::write_verdict;
use cqa_io::{Sink, Source};
use group_text::Wanted;
use std::alloc::Global;

/// Reads the input and writes the line on it, as a formula with a log or a certificate.
fn check<S: Source, K: Sink>(alloc: Global, source: &mut S, sink: &mut K) -> Ending
    ensures row { (state : State) → Ended (Some CheckWord) result (told (S.left source.old) (K.held sink.old) (S.faults source.old) (K.faults sink.old)) (told (S.left source.new) (K.held sink.new) (S.faults source.new) (K.faults sink.new)) state state }
    ensures reads { S.faults source.old ≤ S.faults source.new }
    ensures writes { K.faults sink.old ≤ K.faults sink.new }
{
    let mut input = Vec::new(alloc);
    match read_all(alloc, source, &mut input) {
        ReadEnd::OutOfMemory => Ending::OutOfMemory,
        ReadEnd::Fault => Ending::ReadFault,
        ReadEnd::TooLong => Ending::TooLong,
        ReadEnd::End => match write_verdict(alloc, sink, input.as_slice()) {
            Ok(true) => Ending::Answered,
            Ok(false) => Ending::WithRefusal,
            Err(stop) => Ending::from(stop),
        },
    }
}

/// The command that a word is.
fn command_named(word: &str) -> Option<Command>
    ensures { MatchOption result ((command : Command) → StandFor (word.now ∷ []) command → ⊥) (λ command. StandFor (word.now ∷ []) command) }
{
    if word == "run" {
        return Some(Command::Run);
    }
    if word == "check" {
        return Some(Command::Check);
    }
    if word == "judge" {
        return Some(Command::Judge {
            wanted: Wanted::Verdicts,
            budget: CONFLICTS,
        });
    }
    None
}

/// The command that `demo` and a size are.
fn demo_sized(digits: &str) -> Option<Command>
    ensures { MatchOption result ((command : Command) → StandFor (codes "demo" ∷ digits.now ∷ []) command → ⊥) (λ command. StandFor (codes "demo" ∷ digits.now ∷ []) command) }
{
    match size_of(digits.as_bytes()) {
        Some(size) => Some(Command::Demo(size)),
        None => None,
    }
}

/// The command that `judge` and another word are.
fn judge_with(word: &str) -> Option<Command>
    ensures { MatchOption result ((command : Command) → StandFor (codes "judge" ∷ word.now ∷ []) command → ⊥) (λ command. StandFor (codes "judge" ∷ word.now ∷ []) command) }
{
    if word == "reasons" {
        return Some(Command::Judge {
            wanted: Wanted::Reasons,
            budget: CONFLICTS,
        });
    }
    if word == "ranges" {
        return Some(Command::Judge {
            wanted: Wanted::Ranges,
            budget: MOST_WORK,
        });
    }
    match budget_of(word.as_bytes()) {
        Some(budget) => Some(Command::Judge {
            wanted: Wanted::Verdicts,
            budget,
        }),
        None => None,
    }
}

/// The command that a word and another are.
fn command_with(word: &str, second: &str) -> Option<Command>
    ensures { MatchOption result ((command : Command) → StandFor (word.now ∷ second.now ∷ []) command → ⊥) (λ command. StandFor (word.now ∷ second.now ∷ []) command) }
{
    if word == "demo" {
        return demo_sized(second);
    }
    if word == "judge" {
        return judge_with(second);
    }
    None
}

/// The command that `judge`, a word and a budget are.
fn judge_sized(word: &str, digits: &str) -> Option<Command>
    ensures { MatchOption result ((command : Command) → StandFor (codes "judge" ∷ word.now ∷ digits.now ∷ []) command → ⊥) (λ command. StandFor (codes "judge" ∷ word.now ∷ digits.now ∷ []) command) }
{
    let Some(budget) = budget_of(digits.as_bytes()) else {
        return None;
    };
    if word == "reasons" {
        return Some(Command::Judge {
            wanted: Wanted::Reasons,
            budget,
        });
    }
    if word == "ranges" {
        return Some(Command::Judge {
            wanted: Wanted::Ranges,
            budget,
        });
    }
    None
}

/// The command that three words are: `judge`, `reasons` or `ranges`, and a budget.
fn command_of_three(word: &str, second: &str, digits: &str) -> Option<Command>
    ensures { MatchOption result ((command : Command) → StandFor (word.now ∷ second.now ∷ digits.now ∷ []) command → ⊥) (λ command. StandFor (word.now ∷ second.now ∷ digits.now ∷ []) command) }
{
    if word != "judge" {
        return None;
    }
    judge_sized(second, digits)
}

/// The command that the words are.
fn command(words: &[String]) -> Option<Command>
    ensures { IsAskedBy words.now result }
{
    match words {
        [word] => command_named(word.as_str()),
        [word, second] => command_with(word.as_str(), second.as_str()),
        [word, second, third] => {
            command_of_three(word.as_str(), second.as_str(), third.as_str())
        }
        _ => None,
    }
}

/// Runs the program on its words, and answers its status: 0 where all is answered, 1 where a statement is refused, 2 for
/// words that aren't accepted, 3 and 4 for a fault of the source or the sink, 5 where memory runs out, 6 for an input that
/// is too long.
///
/// For every list of words and every input, the status and the bytes written are those of a machine that holds its tables as plain lists of rows: each answered ask gives exactly the rows that every repair gives, each once and ascending, each range, whole or by groups, has the ends of its definition, each explanation is true by its own, the rows that stand against a row rule it out, and none of them can be left out, each group of lists from elsewhere that is judged certain has some list whole in every choice of a row of each block, each that is open shows a choice that has none, each least and each greatest value of such lists with weights is that of all choices and is shown with one that has it, and each refusal has its named cause and changes nothing, except that a spent search keeps its log.
pub fn run_words<S: Source, K: Sink>(
    alloc: Global,
    words: &[String],
    session: &mut Session,
    source: &mut S,
    sink: &mut K,
) -> u8
    requires { session.old ≡ opening }
    ensures row { (command : Option Command) × IsAskedBy words.now command × ((ending : Ending) × (result ≡ code_of ending) × Ended command ending (told (S.left source.old) (K.held sink.old) (S.faults source.old) (K.faults sink.old)) (told (S.left source.new) (K.held sink.new) (S.faults source.new) (K.faults sink.new)) session.old session.new) }
    // With accepted words, where no fault is counted and the source tells that its bytes are within the limit, all is answered, or memory runs out.
    ensures completed { (command : Command) → AreWordsFor words.now command → (Rose (S.faults source.old) (S.faults source.new) → ⊥) → (Rose (K.faults sink.old) (K.faults sink.new) → ⊥) → IsWithinLimit (S.left source.old) → IsCompleted result }
    // `demo` and a size read nothing, so all is answered, or memory runs out, where no fault of writing is counted.
    ensures demo_completed { (size : ℕ) → AreWordsFor words.now (DemoWord size) → (Rose (K.faults sink.old) (K.faults sink.new) → ⊥) → IsCompleted result }
    ensures reads { S.faults source.old ≤ S.faults source.new }
    ensures writes { K.faults sink.old ≤ K.faults sink.new }
{
    match command(words) {
        None => code(Ending::BadWords),
        Some(Command::Run) => code(run(alloc, session, source, sink)),
        Some(Command::Check) => code(check(alloc, source, sink)),
        Some(Command::Demo(size)) => code(demo(alloc, session, sink, size)),
        Some(Command::Judge { wanted, budget }) => {
            code(judge(alloc, wanted, budget, source, sink))
        }
    }
}
