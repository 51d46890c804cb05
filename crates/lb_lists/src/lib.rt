//! The lists of items and displayed paragraphs that are open, and what their commands put back (source2e, file ltlists).
#![tactic(auto)]

mod begins;
mod ends;
mod items;
mod labels;
mod lists;

pub use begins::begin;
pub use ends::end;
pub use items::item;
pub use lists::Lists;
