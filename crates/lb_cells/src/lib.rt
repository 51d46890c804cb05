//! States, and cells over one world and one state.
#![tactic(auto)]

pub mod crossing;
mod direct;
mod overlays;
mod start;
mod state;
mod telling;

pub use direct::Direct;
pub use lb_maps::{CellMap, KeptMap};
pub use overlays::{Writes, overlay};
pub use state::State;
pub use telling::tell;
