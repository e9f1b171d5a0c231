//! The blocks of a certificate, judged one after another along an order of atoms. No table is read: rows are held against the
//! rows above them alone.
#![tactic(auto)]

mod blocks;
mod judging;
mod marking;
mod seen;
mod standing;
mod walk;

pub use judging::judge_blocks;
