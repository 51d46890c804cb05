//! Words and the spaces between them: characters become nodes by the ligature and kerning steps of
//! their font.
#![tactic(auto)]

pub mod laws;
mod part;
mod rewriting;
pub mod space;
pub mod word;

pub use space::add_space;
pub use word::{Word, add_char, finish_word};
