//! Texts that are read expanded, token by token: characters in braces, names, names of files, and the bodies of `\edef` (TeXbook, chapters 20
//! and 24).
#![tactic(auto)]

mod body;
mod ending;
mod file;
mod history;
mod name;
#[cfg(test)]
mod tests;
mod word;

pub use body::{BodyText, BodyTurn};
pub use ending::with_ending;
pub use file::{FileName, FileTurn};
pub use name::NameText;
pub use word::{WordText, WordTurn};
