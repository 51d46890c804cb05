//! The best breaks of paragraphs (TeXbook, chapter 14).
#![tactic(auto)]

mod best;
mod breaking;
mod ends;
mod gathering;
pub mod laws;
mod point;
mod table;

pub use breaking::break_paragraph;
pub use lb_model_paper::paragraph::{BreakEnd, BreakList, BreakRules, EndList, Passes, Shape};
