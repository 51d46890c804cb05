//! Expansion: what one step of it does, and what is noted beside it.
#![tactic(auto)]

pub mod expansion;
pub mod laws;
pub mod rows;

pub use expansion::{Answer, Went};
