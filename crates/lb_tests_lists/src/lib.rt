//! What the test programs of paper share: commands that make lists of nodes and pack them, numbers, and faults.
#![tactic(auto)]

pub mod boxes;
pub mod fault;
pub mod lists;
pub mod number;
pub mod stop;
