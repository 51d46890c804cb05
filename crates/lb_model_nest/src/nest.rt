//! The semantic nest: the lists that are open (tex.web, part 16). Lengths are in scaled points, 65536 to the point.
use lb_base::{Axis, NodeList, Target};
use lb_values::Reach;

/// What becomes of a box (tex.web, sections 1071 to 1076).
#[derive(Clone, Copy)]
pub enum BoxContext {
    /// It is added to the list around it, shifted down by so much, or to the right in a vertical list.
    Shifted(i32),
    /// It is put into a register.
    Register(Reach, u8),
}

/// The parts of a discretionary: what stands at the end of a line that breaks there, at the beginning of the next line, and where no line
/// breaks.
#[derive(Clone, Copy, PartialEq, Eq)]
pub enum DiscPart {
    PreBreak,
    PostBreak,
    NoBreak,
}

/// What an open list is made into.
#[derive(Clone, Copy)]
pub enum ListKind {
    /// The list of pages, whose nodes stand apart.
    Page,
    Paragraph,
    Box(Axis, Target, BoxContext),
    /// Vertical material that comes behind the line in which it stands.
    Adjust,
    Footnote,
    /// A part of the discretionary that stands last in the list around.
    Discretionary(DiscPart),
    /// A mark, whose boxes are made one after another.
    Mark,
    /// A box of a mark: its last one, the right part, or the one before it.
    MarkBox { is_last: bool },
}

/// An open list, with its space factor and the depth of its last box.
#[derive(Drop)]
pub struct Level {
    pub kind: ListKind,
    pub nodes: NodeList,
    pub space_factor: i32,
    pub prev_depth: i32,
}
