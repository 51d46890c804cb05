//! Why the program stops before its input ends, and why a case does.
use lb_base::{Fault, Kind};
use std::alloc::{AllocError, AllocFailed};
use std::io;

#[derive(Debug, Drop)]
pub enum Stop {
    Memory,
    /// Standard input or standard output failed.
    Outside,
    /// A line is no case.
    Command,
}

impl From<AllocError> for Stop {
    fn from(_error: AllocError) -> Stop {
        Stop::Memory
    }
}

impl<T: Drop> From<AllocFailed<T>> for Stop {
    fn from(_error: AllocFailed<T>) -> Stop {
        Stop::Memory
    }
}

impl From<io::Error> for Stop {
    fn from(_error: io::Error) -> Stop {
        Stop::Outside
    }
}

/// Why nothing more of a case is called: a fault, at the feeder's place or at one of its own, or why the program stops.
#[derive(Drop)]
pub enum End {
    Fault(Kind),
    At(Fault),
    Stop(Stop),
}

impl From<Stop> for End {
    fn from(stop: Stop) -> End {
        End::Stop(stop)
    }
}

impl From<AllocError> for End {
    fn from(_error: AllocError) -> End {
        End::Stop(Stop::Memory)
    }
}

impl From<lb_base::Stop> for End {
    fn from(stop: lb_base::Stop) -> End {
        match stop {
            lb_base::Stop::Memory => End::Stop(Stop::Memory),
            lb_base::Stop::Fault(kind) => End::Fault(kind),
            lb_base::Stop::At(fault) => End::At(fault),
        }
    }
}
