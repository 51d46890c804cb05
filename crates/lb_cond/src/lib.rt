//! Conditionals: what tests choose, which are open, and the text of them that is skipped.
#![tactic(auto)]

mod choice;
mod commands;
mod skipping;
mod state;

pub use choice::{comparison, test};
pub use commands::expandable;
pub use lb_model_grammar::{Branch, CondKind, Rel, Sought, Stopper};
pub use skipping::{mark_of, skip, skip_to};
pub use state::{CondState, may_end};
