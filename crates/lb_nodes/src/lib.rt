//! Boxes: what the items of lists take up, how a list is packed into a box, and where the glue of
//! the box is set.
#![tactic(auto)]

mod box_shifts;
mod by_order;
mod give;
pub mod laws;
mod measure;
mod nesting;
mod packing;
mod plan;
mod rounding;
mod setting;
mod showing;
pub mod sizes;
mod small;
mod totals;

pub use box_shifts::{Shifts, shift_at};
pub use lb_base::{
    Axis, Boxed, Discretionary, HeadMark, KernOrigin, Ligature, Node, NodeList, Note, RuleSize,
    Target,
};
pub use nesting::nests_within;
pub use packing::{hpack, vpack};
pub use showing::shown;
