//! Books: what a run has to write for a world, and how it has to end.
#![tactic(auto)]

pub mod end;
pub mod laws;

pub use end::End;
