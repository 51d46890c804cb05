//! What a run may know: its files, its words and its moment.
use crate::files::FileMap;
use lb_base::{Moment, Name};

/// The steps that a piece of a book may take where the words name no number.
pub const STEPS_AT_START: u64 = 50_000_000;

/// Everything that a run can depend on. `main` is the name of the main file without its ending, and
/// `prefix` stands before the names of font files.
#[derive(Drop)]
pub struct World {
    pub files: FileMap,
    pub main: Name,
    pub prefix: Name,
    pub steps: u64,
    pub moment: Moment,
}
