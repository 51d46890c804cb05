//! Tokens, expanded (TeXbook, chapter 20; tex.web, parts 24 to 28).
#![tactic(auto)]

mod asking;
mod calls;
mod closing;
mod conditionals;
mod desk;
mod feeder;
mod fonts;
mod giving;
mod handing;
mod inputs;
mod pairs;
mod putting;
mod readings;
mod rows;
mod scanning;
mod steps;
mod taking;
mod tests;

pub use desk::Desk;
pub use feeder::Feeder;
pub use lb_model_grammar::{Quantity, ScanKind, Scanned};
pub use steps::undefined;
pub use taking::sense_of;
