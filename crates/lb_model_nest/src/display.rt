//! The lists of items and the displayed paragraphs, and the headings (source2e, files ltlists and ltsect).

/// What opens a list of items or a displayed paragraph.
#[derive(Clone, Copy, PartialEq, Eq)]
pub enum Display {
    Itemize,
    Enumerate,
    Description,
    Quote,
    Quotation,
    Center,
    FlushLeft,
    FlushRight,
}

/// The level of a heading.
#[derive(Clone, Copy, PartialEq, Eq)]
pub enum HeadLevel {
    Chapter,
    Section,
    SubSection,
    SubSubSection,
    Paragraph,
    SubParagraph,
}
