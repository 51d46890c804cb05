//! The cells of a state and of the world, and what they hold.
#![tactic(auto)]

pub mod cell;
pub mod meaning;
pub mod reach;
pub mod shared;
pub mod ticket;
pub mod tokens;
pub mod value;

pub use cell::{Cell, RegisterKind};
pub use meaning::{MacroDef, Meaning, Pattern, Register};
pub use reach::Reach;
pub use shared::Shared;
pub use ticket::Ticket;
pub use tokens::{category_at, category_code, equal_token};
pub use value::{CounterList, Form, LabelPair, PageStyle, Value};
