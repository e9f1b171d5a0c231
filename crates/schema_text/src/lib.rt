//! How a schema is written.
#![tactic(auto)]

mod text;

pub use text::schema_text;
