//! What the breaking of paragraphs is asked and what it answers. Lengths are in scaled points, 65536 to
//! the point.
use lb_base::{Glue, Listed};

/// How the lines of a paragraph are: their width, the glue at their left and right ends, and the rules
/// by which they are judged.
#[derive(Clone, Copy)]
pub struct Shape {
    pub width: i32,
    pub left: Glue,
    pub right: Glue,
    pub rules: BreakRules,
}

/// The number parameters of paragraphs, and the passes that are taken.
#[derive(Clone, Copy)]
pub struct BreakRules {
    pub pretolerance: i32,
    pub tolerance: i32,
    pub line_penalty: i32,
    pub hyphen_penalty: i32,
    pub ex_hyphen_penalty: i32,
    pub adj_demerits: i32,
    pub double_hyphen_demerits: i32,
    pub final_hyphen_demerits: i32,
    pub club_penalty: i32,
    pub widow_penalty: i32,
    pub broken_penalty: i32,
    pub interline_penalty: i32,
    pub passes: Passes,
}

/// The passes over a paragraph. The first one is that of `\pretolerance`, and the second one that of
/// `\tolerance`.
#[derive(Clone, Copy, PartialEq, Eq)]
pub enum Passes {
    First,
    Second,
    Both,
}

/// Where a line ends: the number of an item of the list, from 0, and whether the line is bad.
#[derive(Clone, Copy)]
pub struct BreakEnd {
    pub item: usize,
    pub is_bad: bool,
}

pub type EndList = Listed<BreakEnd>;

/// The chosen breaks, and the pass that found them. Where no pass found any, the pass is 0 and there
/// are no ends.
#[derive(Drop)]
pub struct BreakList {
    pub pass: u8,
    pub ends: EndList,
}

/// How badly the width of a line fits its glue, by what it has to do (The TeXbook, chapter 14).
#[derive(Clone, Copy, PartialEq, Eq)]
pub enum Fitness {
    VeryLoose,
    Loose,
    Decent,
    Tight,
}

/// What a line that may be chosen adds to the demerits of a paragraph, but for those of two lines that
/// do not go together.
#[derive(Clone, Copy)]
pub struct Judged {
    pub is_bad: bool,
    pub demerits: i64,
    pub fitness: Fitness,
}

/// The natural width of a list, its stretch of each order, and its shrink of all orders together.
#[derive(Clone, Copy)]
pub struct LineSums {
    pub width: i64,
    pub finite: i64,
    pub fil: i64,
    pub fill: i64,
    pub filll: i64,
    pub shrink: i64,
}

/// The glue between the lines of a vertical list.
#[derive(Clone, Copy)]
pub struct LineRules {
    pub baselineskip: Glue,
    pub lineskip: Glue,
    pub lineskiplimit: i32,
}
