//! The pieces of a book (source2e, file ltfiles).
use lb_base::Name;

/// The kernel text; lines of the main file, up to the last one, which is not its own; the file of a chapter, which an include line names; and
/// a chapter that is not wanted.
#[derive(Drop)]
pub enum Piece {
    Kernel,
    Segment { first: u64, last: u64 },
    Chapter { name: Name, line: u64 },
    Skip { name: Name },
}
