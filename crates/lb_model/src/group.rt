//! Groups (TeXbook, chapter 7).

/// What opened a group: a character of category 1; `\begingroup` or `\begin`; a box, or material that is set by itself.
#[derive(Clone, Copy, PartialEq, Eq)]
pub enum GroupKind {
    Simple,
    Semi,
    Material,
}

/// An open group: its kind, and how many saves were made in it.
#[derive(Clone, Copy)]
pub struct Group {
    pub kind: GroupKind,
    pub saves: u64,
}
