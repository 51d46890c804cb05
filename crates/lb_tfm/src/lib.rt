//! TFM fonts, read at a size or refused (the TFM format, tex.web, part 30).
#![tactic(auto)]

mod bytes;
mod character;
mod font;
pub mod laws;
mod length;
mod program;
mod reading;
pub mod rows;
mod rules;
mod sections;
mod step;
mod stop;
mod tables;

pub use font::Font;
pub use lb_base::{LigStep, Metrics, Parameters, Side};
pub use reading::read;
pub use stop::TfmStop;
