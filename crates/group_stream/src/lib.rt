//! A stream of groups: each is judged as soon as its last line has come, and the replies are handed on before more is read.
#![tactic(auto)]

mod ending;
mod gathering;
mod input;
pub mod laws;
mod stream;

pub use ending::{MOST_JUDGED, StreamEnd};
pub use stream::judge_stream;
