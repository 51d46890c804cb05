//! Fonts by style and size: their names and sizes, what lies between their baselines, and their files.
#![tactic(auto)]

mod loading;
mod name;
pub mod shelf;
mod table;

pub use lb_tfm::Font;
pub use loading::load;
pub use name::FontName;
pub use shelf::Shelf;
pub use table::{baselineskip, select};
