//! The faults of the layer.
use crate::stop::Stop;
use std::fmt::Write;

/// Shows the fault of a call. Want of memory, and a fault with a place, stop the program.
pub fn show_fault(stop: &lb_base::Stop, out: &mut String) -> Result<(), Stop> {
    match stop {
        lb_base::Stop::Memory => Err(Stop::Memory),
        lb_base::Stop::Fault(kind) => {
            let name = kind.name();
            writeln!(out, "fault {name}")?;
            Ok(())
        }
        lb_base::Stop::At(_) => Err(Stop::Command),
    }
}
