//! The world that states are made over.
use crate::stop::Stop;
use lb_base::{Moment, Name};
use lb_model::{FileMap, STEPS_AT_START, World};
use std::alloc::Global;

/// A world without files.
pub(crate) fn world(alloc: Global) -> Result<World, Stop> {
    let moment = Moment {
        year: 1776,
        month: 7,
        day: 4,
        minutes: 720,
    };
    Ok(World {
        files: FileMap::new(alloc),
        main: Name::from_slice(alloc, b"main")?,
        prefix: Name::from_slice(alloc, b"")?,
        steps: STEPS_AT_START,
        moment,
    })
}
