//! The marks of a page: its characters and rules, each where it stands. Lengths are in scaled points,
//! 65536 to the point.
#![tactic(auto)]

mod drawing;
pub mod laws;
mod page;
mod place;

pub use lb_base::{FontId, Mark, MarkList, PageCode};
pub use page::{marks, page_code};
