//! Where the words of a board's table stand, and what a chapter's mark says.

/// The word that counts draws: the number of the next chapter, as long as it is one.
pub(crate) const DRAWS: usize = 0;

/// The word that is 1 once the board is halted, and 0 before.
pub(crate) const HALT: usize = 1;

/// The mark of the first chapter, behind which those of the others stand. It is 0 at the start.
pub(crate) const MARKS: usize = 2;

/// The chapter is posted.
pub(crate) const POSTED: u64 = 1;

/// A seat is taking the chapter.
pub(crate) const TAKING: u64 = 2;

/// The chapter was taken.
pub(crate) const TAKEN: u64 = 3;
