//! Macros whose bodies are read: their arguments, and what comes next of a body with them, without copies of either.
#![tactic(auto)]

mod arguments;
mod call;
mod rest;

pub use arguments::Arguments;
pub use call::{Call, Piece, count_filled};
pub use rest::Rest;
