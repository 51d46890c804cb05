//! Counters and labels over any cells (source2e, files ltcounts and ltxref).
#![tactic(auto)]

mod changes;
mod labels;
mod lists;
mod new_counters;
mod numbers;
mod texts;

pub use labels::{label, reference};
pub use new_counters::new_counter;
pub use numbers::{set, step};
pub use texts::{print, printer, printer_name};
