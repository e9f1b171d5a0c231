//! The class of a query by the cycles of its attacks.
#![tactic(auto)]

mod classes;
mod walking;

pub use classes::class_of;
pub use complexity_class::Class;
