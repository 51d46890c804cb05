//! How a turn of the main control goes (tex.web, part 46).
use lb_base::{Fault, Kind};

/// There is more to do, the text is used up, or there is a fault: at the place of the last token that was taken from a text, or at a
/// place of its own.
#[derive(Drop)]
pub enum Went {
    On,
    Over,
    Stopped(Kind),
    StoppedAt(Fault),
}
