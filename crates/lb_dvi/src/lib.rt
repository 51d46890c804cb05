//! DVI files, written page by page (the DVI format, version 2).
#![tactic(auto)]

mod drawable;
mod font;
pub mod laws;
mod mark;
mod number;
mod opening;
mod pen;
mod writer;

pub use drawable::is_drawable;
pub use lb_marks::{FontId, Mark, MarkList, PageCode, marks, page_code};
pub use opening::preamble;
pub use writer::{DviStop, Writer};
