//! Scans of numbers, dimensions, glue and keywords, which are given their tokens one by one (TeXbook, chapter 24; tex.web, part 26).
#![tactic(auto)]

mod arith;
mod class;
mod dimension;
mod fraction;
mod glue;
mod history;
mod kept;
mod keyword;
mod length;
mod number;
mod scan;
mod size;
mod spelling;
mod stage;
mod unit;
mod word;

pub use lb_model_grammar::{Class, Given, Quantity, ScanKind, Scanned, Want};
pub use scan::Scan;
