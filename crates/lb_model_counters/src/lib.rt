//! Counters and labels: what the commands on them answer, look at and set (source2e, files ltcounts and ltxref).
#![tactic(auto)]

pub mod laws;
pub mod rows;
