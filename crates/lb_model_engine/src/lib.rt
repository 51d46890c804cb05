//! What every command does: the row of each command as a function on whole configurations, and what is noted beside it.
#![tactic(auto)]

pub mod definition;
pub mod laws;
pub mod piece;
pub mod rows;

pub use definition::NewKind;
pub use piece::Piece;
