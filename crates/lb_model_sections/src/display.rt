//! The lists of items and the displayed paragraphs (source2e, file ltlists).

/// What opens a list of items or a displayed paragraph.
#[derive(Clone, Copy, PartialEq, Eq)]
pub enum Display {
    Itemize,
    Enumerate,
    Description,
    Quote,
    Quotation,
    Center,
    FlushLeft,
    FlushRight,
}
