//! What a run reads, the state that a book is set in, and the journal of what is written.
#![tactic(auto)]

pub mod append;
pub mod arith;
pub mod cells;
pub mod expandable;
pub mod feed;
pub mod files;
pub mod group;
pub mod held_numbers;
pub mod laws;
pub mod open;
pub mod place;
pub mod reading;
pub mod reads;
pub mod within;
pub mod world;

pub use append::Append;
pub use arith::{Arith, Part};
pub use cells::Cells;
pub use expandable::{Expandable, TestKind};
pub use feed::Feed;
pub use files::FileMap;
pub use group::{Group, GroupKind};
pub use held_numbers::held;
pub use open::{Compared, Conditional, Indexed, Pairing, Purpose, ReadingKind};
pub use place::{Got, Mode, Place};
pub use reading::{Read, ReaderState};
pub use world::{STEPS_AT_START, World};
