//! The program itself: a session of the machine, which takes the text of a statement to its reply, and the top call, from words and
//! bytes to a status. Beside them stand the laws that the machine always goes on, so that what was written where a run was cut short
//! begins the text of a whole one.
#![tactic(auto)]

mod answers;
pub mod changing;
mod demo;
mod ending;
mod execute;
mod input;
mod judging;
pub mod laws;
mod pieces;
mod reading;
mod session;
mod taker;
mod tally;
mod top;
mod verdict;

pub use input_check::{CheckReply, check_bytes};
pub use session::{CONFLICTS, Session, text_says_one_thing, text_says_something};
pub use top::run_words;
