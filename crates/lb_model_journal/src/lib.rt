//! The lines of aux, toc and log files, as they are written.
#![tactic(auto)]

pub mod entry;
pub mod event;

pub use entry::Entry3;
pub use event::Event;
