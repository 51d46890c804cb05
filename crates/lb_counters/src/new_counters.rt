//! New counters.
ghost use Rattle.std.specs.Prelude.{◌≡◌, [], unwrap_or};
ghost use Rattle.std.specs.Option.{option_copied};
ghost use Rattle.lb_model_counters.specs.Counters.{begun, new_counter};
ghost use Rattle.lb_counters.specs.Does.{Does};
ghost use Rattle.lb_counters.specs.Sets.{Sets};

use crate::changes::{push_counter, push_reset, set_number};
use crate::numbers::{number_of, resets_of};
use lb_base::{Kind, Name, NameList, NoMemory, Stop};
use lb_model::{Cells, reads};
use lb_values::{Cell, Shared};
use std::alloc::Global;

// The counter is 0, and stands last in a checkpoint.
fn begin<C: Cells>(
    alloc: Global,
    cells: &mut C,
    name: &Name,
    checkpoint: Option<Shared<NameList>>,
) -> Result<(), NoMemory>
    ensures sets { Sets C.Cells (begun name.now (unwrap_or checkpoint [])) result cells.new cells.old }
{
    set_number(cells, name, 0)?;
    push_counter(alloc, cells, checkpoint, name)?;
    Ok(())
}

/// Makes a counter (`\newcounter`; source2e, file ltcounts), globally: it is 0, stands last in a checkpoint, and is reset by each step of the
/// one that it is within, if that is given. `AlreadyDefined` exactly where it is there, and else `NoCounter` exactly where the other one is not
/// there; then nothing is changed. After want of memory some of this may be done.
#[tactic(auto, unfolding(lb_model_counters::specs::Counters::new_counter))]
pub fn new_counter<C: Cells>(
    alloc: Global,
    cells: &mut C,
    name: &Name,
    within: Option<&Name>,
) -> Result<(), Stop>
    ensures does { Does C.Cells (new_counter name.now (option_copied within.entry)) result cells.new cells.old }
{
    if number_of(cells, name)?.is_some() {
        return Err(Stop::Fault(Kind::AlreadyDefined));
    }
    let checkpoint = reads::names(cells, Cell::Counters)?;
    let Some(within) = within else {
        begin(alloc, cells, name, checkpoint)?;
        return Ok(());
    };
    if number_of(cells, within)?.is_none() {
        return Err(Stop::Fault(Kind::NoCounter));
    }
    let list = resets_of(cells, within)?;
    begin(alloc, cells, name, checkpoint)?;
    push_reset(alloc, cells, within, list, name)?;
    Ok(())
}
