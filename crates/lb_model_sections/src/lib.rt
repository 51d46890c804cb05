//! Headings, tables of contents, and lists of items and displayed paragraphs: what their commands put back, look at and set (source2e, files
//! ltsect and ltlists; classes, file classes.dtx).
#![tactic(auto)]

mod display;
mod heading;
pub mod laws;
pub mod rows;
mod texts;

pub use display::Display;
pub use heading::{HeadLevel, HeadTokens, HeadWant};
pub use texts::{before, copied, joined, known};
