//! Groups of changes over any cells: what was changed in a group is put back as it closes.
#![tactic(auto)]

mod changes;
mod groups;
pub mod looks;

pub use changes::{assign, close_group};
pub use groups::Groups;
