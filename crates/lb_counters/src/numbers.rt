//! The numbers of counters: told, set, and added to.
ghost use Rattle.std.specs.Prelude.{◌≡◌, ◌+ℤ◌, IfOk, IfSome, OnErr, cond, Some, None, true};
ghost use Rattle.lb_values.specs.declared.cell.Cell.TheVariants as cells_of;
ghost use Rattle.lb_model.specs.Kinds.{names_of, optional_number};
ghost use Rattle.lb_model.specs.Ranges.{is_number};
ghost use Rattle.lb_model.specs.Settings.{Setting};
ghost use Rattle.lb_model.specs.Told.{Tells};
ghost use Rattle.lb_model_counters.specs.Counters.{set_counter, step_counter};
ghost use Rattle.lb_counters.specs.Does.{Does};

use crate::changes::{set_and_reset, set_number};
use lb_base::{Kind, Name, NameList, NoMemory, Stop};
use lb_model::{Cells, reads, within};
use lb_values::{Cell, Shared};

/// The number of a counter, if it is there.
pub(crate) fn number_of<C: Cells>(cells: &mut C, name: &Name) -> Result<Option<i32>, NoMemory>
    ensures tells { Tells C.Cells (cells_of.Counter name.now) optional_number result cells.new cells.old }
    ensures range { IfOk result (λ number. IfSome number (λ n. is_number n ≡ true)) }
{
    let cell = Cell::Counter(name.clone()?);
    reads::number_if_any(cells, cell)
}

/// The counters that a step of this one resets, if it has a list of them.
pub(crate) fn resets_of<C: Cells>(
    cells: &mut C,
    name: &Name,
) -> Result<Option<Shared<NameList>>, NoMemory>
    ensures tells { Tells C.Cells (cells_of.Resets name.now) names_of result cells.new cells.old }
{
    let cell = Cell::Resets(name.clone()?);
    reads::names(cells, cell)
}

/// Sets a counter to a number (`\setcounter`; source2e, file ltcounts), globally. `NoCounter` exactly where there is none of this name. After
/// an error nothing is changed.
#[tactic(auto, unfolding(lb_model_counters::specs::Counters::set_counter))]
pub fn set<C: Cells>(cells: &mut C, name: &Name, value: i32) -> Result<(), Stop>
    requires number { is_number value ≡ true }
    ensures does { Does C.Cells (set_counter name.now value) result cells.new cells.old }
    ensures same { OnErr result ((p : Setting) → C.agrees cells.new p → C.meaning cells.new p ≡ C.meaning cells.old p) }
{
    match number_of(cells, name)? {
        None => Err(Stop::Fault(Kind::NoCounter)),
        Some(_) => {
            set_number(cells, name, value)?;
            Ok(())
        }
    }
}

// The sum of two numbers, none where it is not above the least that 32 bits hold or they do not hold it.
fn sum(number: i32, by: i32) -> Option<i32>
    ensures { result ≡ cond (is_number (number +ℤ by)) (Some (number +ℤ by)) None }
{
    let sum = number.checked_add(by)?;
    if within::is_number(sum) {
        Some(sum)
    } else {
        None
    }
}

/// Adds a number to a counter, globally (`\addtocounter`), and with `resets` sets each counter of its own list to 0 (`\stepcounter`), but no
/// counter of their lists (source2e, file ltcounts). `NoCounter` exactly where there is none of this name, `Overflow` exactly where the sum is
/// not above -2^31 or not below 2^31; then nothing is changed. After want of memory some of this may be done.
#[tactic(auto, unfolding(lb_model_counters::specs::Counters::step_counter))]
pub fn step<C: Cells>(cells: &mut C, name: &Name, by: i32, resets: bool) -> Result<(), Stop>
    ensures does { Does C.Cells (step_counter name.now by resets) result cells.new cells.old }
{
    let Some(number) = number_of(cells, name)? else {
        return Err(Stop::Fault(Kind::NoCounter));
    };
    let Some(number) = sum(number, by) else {
        return Err(Stop::Fault(Kind::Overflow));
    };
    if !resets {
        set_number(cells, name, number)?;
        return Ok(());
    }
    let list = resets_of(cells, name)?;
    set_and_reset(cells, name, number, list)?;
    Ok(())
}
