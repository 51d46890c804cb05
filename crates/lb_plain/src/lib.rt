//! The books that are built: which worlds have their form, and the pages that they give.
#![tactic(auto)]

pub mod chapter;
pub mod font;
pub mod form;
pub mod main_file;
pub mod own_lines;
pub mod page;

pub use form::{chapters_are_plain, plain_names};
pub use page::plain_page;
