//! Sources and sinks of bytes that count their faults: over std's readers and writers, over memory, and some that never fail.
#![tactic(auto)]

mod calls;
mod calm;
mod memory;
mod standard;
mod streams;

pub use calm::{CalmSource, CountSink};
pub use memory::{MemSink, MemSource};
pub use standard::{StdSink, StdSource};
pub use streams::{Failed, Sink, Source, write_all};
