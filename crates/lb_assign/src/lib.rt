//! Assignments over any cells: definitions, registers, parameters and codes, arithmetic, and groups.
#![tactic(auto)]

mod arithmetic;
mod definitions;
mod registers;
mod scopes;
mod sums;

pub use arithmetic::arith;
pub use definitions::{define, let_};
pub use lb_groups::{Groups, assign};
pub use lb_model::{Arith, GroupKind};
pub use registers::register;
pub use scopes::{close_group, open_group};
