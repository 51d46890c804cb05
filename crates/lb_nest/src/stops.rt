//! How rows end with what stopped a call.
ghost use Rattle.std.specs.Prelude.{IfOk};
ghost use Rattle.lb_nest.specs.Stops.{IsStopOf};

use lb_base::{NoMemory, Stop};
use lb_model_nest::Went;
use std::alloc::AllocError;

/// The end of a row in which a call stopped with a fault that has no place of its own.
pub(crate) fn stopped(stop: Stop) -> Result<Went, NoMemory>
    ensures { IfOk result (λ went. IsStopOf stop went) }
{
    match stop {
        Stop::Fault(kind) => Ok(Went::Stopped(kind)),
        Stop::Memory | Stop::At(_) => Err(AllocError),
    }
}
