//! How the setting of a book ends.
use lb_base::Fault;

/// A book ends well, or at its first fault.
#[derive(Clone, Drop, PartialEq, Eq)]
pub enum End {
    Done,
    Fault(Fault),
}
