//! What a piece adds to the journal.
use lb_base::{Bytes, PageCode};

/// A page, a line of an aux file, or a line of the log.
#[derive(Drop)]
pub enum Append {
    Page(PageCode),
    Aux(Bytes),
    Log(Bytes),
}
