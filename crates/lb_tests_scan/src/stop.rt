//! Why the program stops before its input ends.
use lb_base::Kind;
use std::alloc::{AllocError, AllocFailed};
use std::io;

#[derive(Debug, Drop)]
pub enum Stop {
    Memory,
    /// Standard input, standard output or a file failed.
    Outside,
    /// A line is no command.
    Command,
}

impl From<AllocError> for Stop {
    fn from(_error: AllocError) -> Stop {
        Stop::Memory
    }
}

impl<T: Drop> From<AllocFailed<T>> for Stop {
    fn from(_error: AllocFailed<T>) -> Stop {
        Stop::Memory
    }
}

impl From<io::Error> for Stop {
    fn from(_error: io::Error) -> Stop {
        Stop::Outside
    }
}

/// The fault of a call, if there is one: such a fault has no place.
pub(crate) fn fault(answer: Result<(), lb_base::Stop>) -> Result<Option<Kind>, Stop> {
    match answer {
        Ok(()) => Ok(None),
        Err(lb_base::Stop::Fault(kind)) => Ok(Some(kind)),
        Err(_) => Err(Stop::Memory),
    }
}
