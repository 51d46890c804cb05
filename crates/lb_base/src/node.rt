//! The items of lists, and boxes of them. Lengths are in scaled points, 65536 to the point.
use crate::font::Metrics;
use crate::glue::{Glue, GlueSet};
use crate::listed::Bytes;
use crate::name::Name;
use crate::page::FontId;
use crate::token::TokList;
use sqlite_items::{Boxed as Held, Items};

/// An item of a horizontal or vertical list.
#[cycle(node)]
#[derive(Drop)]
pub enum Node {
    /// A character, which holds what packing needs of its font.
    Char {
        code: u8,
        metrics: Metrics,
        font: FontId,
    },
    Lig(Held<Ligature>),
    Kern {
        width: i32,
        origin: KernOrigin,
    },
    Glue(Glue),
    Penalty(i32),
    Disc(Held<Discretionary>),
    Rule(RuleSize),
    Boxed(Held<Boxed>),
    Note(Held<Note>),
    Mark(Held<HeadMark>),
    /// A footnote.
    Ins(Held<Boxed>),
    /// Vertical material that comes behind the line in which this stands.
    Adjust(NodeList),
}

pub type NodeList = Items<Node>;

/// What stands where a line breaks here, at its end and at the beginning of the next one, and what
/// stands where it does not.
#[cycle(node)]
#[derive(Drop)]
pub struct Discretionary {
    pub pre_break: Items<Node>,
    pub post_break: Items<Node>,
    pub no_break: Items<Node>,
}

/// What the heads of pages show from here on: of even and of odd pages, or of odd pages alone.
#[cycle(node)]
#[derive(Drop)]
pub enum HeadMark {
    Both {
        left: Held<Boxed>,
        right: Held<Boxed>,
    },
    Right(Held<Boxed>),
}

/// A box. It is raised or lowered in its list, where `shift` is how far down in a horizontal list
/// and how far to the right in a vertical one.
#[cycle(node)]
#[derive(Drop)]
pub struct Boxed {
    pub axis: Axis,
    pub items: Items<Node>,
    pub width: i32,
    pub height: i32,
    pub depth: i32,
    pub shift: i32,
    pub glue_set: GlueSet,
}

/// The size of a rule. What is not given runs to the box that the rule stands in.
#[derive(Clone, Copy)]
pub struct RuleSize {
    pub width: Option<i32>,
    pub height: Option<i32>,
    pub depth: Option<i32>,
}

/// The way in which the items of a list stand behind one another.
#[derive(Clone, Copy, PartialEq, Eq)]
pub enum Axis {
    Horizontal,
    Vertical,
}

/// A kerning step of a font makes a font kern. A line can break at no font kern.
#[derive(Clone, Copy, PartialEq, Eq)]
pub enum KernOrigin {
    Font,
    Explicit,
}

/// A ligature, and the codes of the characters that it stands for.
#[derive(Clone, Drop)]
pub struct Ligature {
    pub font: FontId,
    pub code: u8,
    pub metrics: Metrics,
    pub letters: Bytes,
}

/// What is written when the page is shipped on which this stands.
#[derive(Clone, Drop)]
pub enum Note {
    /// A label, with its text. The number of its page comes to it when it is written.
    Label {
        key: Name,
        text: Bytes,
    },
    /// An entry of a table of contents: the ending of the table's file, the kind of heading and
    /// its title. The number of its page comes to it when it is written.
    Contents {
        extension: Name,
        kind: Name,
        title: TokList,
    },
}
