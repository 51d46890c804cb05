//! The tokens of a line, the lines of a text, and tokens that stand next in a source.
#![tactic(auto)]

mod control;
mod examined;
pub mod lines;
pub mod places;
pub mod reader;
pub mod rows;
pub mod source;
mod stack;
mod step;
pub mod text;

pub use lines::{Lines, line_at, source_line, split_line};
pub use places::set_place;
pub use reader::{LineReader, next};
pub use source::Source;
pub use text::Text;
