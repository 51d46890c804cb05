//! Headings (source2e, file ltsect).
use lb_base::{Name, TokList};

/// The level of a heading.
#[derive(Clone, Copy, PartialEq, Eq)]
pub enum HeadLevel {
    Chapter,
    Section,
    SubSection,
    SubSubSection,
    Paragraph,
    SubParagraph,
}

/// A heading that is wanted: the number of its level, whether it has a star, its short title where it has one, and its title.
#[derive(Drop)]
pub struct HeadWant {
    pub n: i32,
    pub star: bool,
    pub short: Option<TokList>,
    pub title: TokList,
}

/// What a heading puts back, with the first parameter in the places of its number, and the counter that was stepped for it, where one was.
#[derive(Drop)]
pub struct HeadTokens {
    pub tokens: TokList,
    pub counter: Option<Name>,
}
