//! How far a change of a cell reaches.

/// Whether a change ends with the group in which it is made.
#[derive(Clone, Copy, PartialEq, Eq)]
pub enum Reach {
    Local,
    Global,
}
