//! Maps by cells, and maps whose entries can be saved and put back without memory.
#![tactic(auto)]

mod cell_map;
mod kept_map;
pub mod laws;
mod saves;
mod slots;

pub use cell_map::CellMap;
pub use kept_map::KeptMap;
pub use saves::Saves;
