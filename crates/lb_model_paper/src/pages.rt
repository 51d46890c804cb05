//! Pages: the rules by which they end, and what they hold. Lengths are in scaled points, 65536 to
//! the point.
use lb_base::{Boxed, Glue, Listed, NodeList};

/// The height that a page is filled to, the glue before its first box or rule, and how far its last
/// one may hang below its bottom.
#[derive(Clone, Copy)]
pub struct PageRules {
    pub textheight: i32,
    pub topskip: Glue,
    pub maxdepth: i32,
}

/// What it costs to end a page at a place. Awful is more than any number: the page would be
/// overfull.
#[derive(Clone, Copy)]
pub enum Cost {
    Number(i32),
    Awful,
}

/// What a page has: its items, its footnotes, and the height that its items are to be set to.
#[derive(Drop)]
pub struct PagePart {
    pub items: NodeList,
    pub feet: NodeList,
    pub goal: i64,
}

pub type PartList = Listed<PagePart>;

/// Which of head and foot a page has: the styles are `empty`, `plain`, and `headings` or
/// `myheadings`.
#[derive(Clone, Copy)]
pub enum HeadFoot {
    Neither,
    Foot,
    Head,
}

/// The lengths of a page. The margins are those of odd and of even pages.
#[derive(Clone, Copy)]
pub struct PageLengths {
    pub textwidth: i32,
    pub textheight: i32,
    pub headheight: i32,
    pub headsep: i32,
    pub footskip: i32,
    pub topmargin: i32,
    pub oddsidemargin: i32,
    pub evensidemargin: i32,
}

/// How a page looks: its number, the nodes that show it, which of head and foot it has, and the marks
/// of its head, the left one on even and the right one on odd pages.
#[derive(Drop)]
pub struct PageLook {
    pub number: i32,
    pub digits: NodeList,
    pub style: HeadFoot,
    pub left: Option<Boxed>,
    pub right: Option<Boxed>,
    pub lengths: PageLengths,
}
