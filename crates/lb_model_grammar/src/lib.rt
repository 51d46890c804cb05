//! Grammars: what lists of tokens mean as numbers, dimensions, glue, words, arguments and skipped text, and what numbers print as.
#![tactic(auto)]

pub mod class;
pub mod condition;
pub mod given;
pub mod laws;
pub mod rows;

pub use class::{Brace, Class};
pub use condition::{Branch, CondKind, Mark, Rel, Sought, Stopper};
pub use given::{Given, Quantity, ScanKind, Scanned, Want};
