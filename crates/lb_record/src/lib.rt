//! Cells over a guess, which note what they tell and keep what is written.
#![tactic(auto)]

mod copies;
pub mod crossing;
mod known;
pub mod laws;
mod recorder;

pub use copies::{copy, copy_over};
pub use lb_cells::Writes;
pub use recorder::{Reads, Recorder};
