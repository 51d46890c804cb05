//! One reading of a line.
use lb_model::{Read, ReaderState};

/// What is read of a line, where the line goes on, and the state of its reader there.
#[derive(Drop)]
pub struct Step {
    pub read: Read,
    pub at: usize,
    pub state: ReaderState,
}
