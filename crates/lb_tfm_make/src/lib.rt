//! TFM fonts, made from short descriptions (the TFM format, tex.web, part 30).
#![tactic(auto)]

mod codes;
pub mod laws;
mod making;
mod number;
mod programs;
mod sections;
mod spec;
mod stop;
mod test_spec;
mod valid;
mod widths;

pub use making::make;
pub use spec::{CharWidth, FixParameters, FontSpec, PairStep};
pub use stop::MakeStop;
pub use test_spec::test_font;
