//! What commands print: numbers in their forms, quantities, and tokens as characters (TeXbook, chapter 20; source2e, file ltcounts).
#![tactic(auto)]

mod form;
mod number;
mod quantity;
mod roman;
#[cfg(test)]
mod tests;
mod tokens;

pub use form::in_form;
pub use number::decimal;
pub use quantity::quantity_text;
pub use tokens::{characters_of, printed};
