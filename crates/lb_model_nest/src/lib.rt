//! The semantic nest: lists that are open, words, boxes, paragraphs and pages, as functions on whole configurations.
#![tactic(auto)]

pub mod display;
pub mod nest;
pub mod turn;

pub use display::{Display, HeadLevel};
pub use nest::{BoxContext, DiscPart, Level, ListKind};
pub use turn::Went;
