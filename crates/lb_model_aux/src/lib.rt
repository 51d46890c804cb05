//! What old aux files say, and the checkpoint of a state.
#![tactic(auto)]

pub mod laws;
pub mod line;
pub mod rows;

pub use line::{Aux, Line};
