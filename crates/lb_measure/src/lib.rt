//! Paragraphs, measured so that each of their lines is judged in constant time.
#![tactic(auto)]

mod amounts;
mod breaks;
mod judging;
mod leads;
mod limit;
mod lines;
mod measured;
mod places;
mod summing;

pub use breaks::is_discardable;
pub use limit::has_few_items;
pub use measured::{Measured, measure};
