//! The lines of paragraphs (TeXbook, chapters 12 and 14).
#![tactic(auto)]

mod adding;
mod cutting;
mod glue;
mod paragraph;
mod parting;
mod penalty;
mod rising;
mod setting;

pub use glue::append_line;
pub use lb_model_paper::paragraph::{BreakEnd, BreakList, BreakRules, EndList, LineRules, Shape};
pub use paragraph::{lines, lines_apart};
pub use rising::are_ends;
