//! The texts of aux, toc and log files: old aux files are read, and lines are written (source2e, files ltfiles, ltsect and ltxref).
#![tactic(auto)]

mod checkpoint;
mod forms;
mod groups;
mod labels;
mod lines;
mod log;
mod number;
mod reading;
mod tokens;

pub use checkpoint::checkpoint_text;
pub use labels::{contents_line, label_line};
pub use log::log_line;
pub use reading::read_aux;
pub use tokens::written;
