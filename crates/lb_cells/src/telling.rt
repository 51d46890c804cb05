//! What a cell tells: what the world has for it, or what the state holds.
ghost use Rattle.std.specs.Prelude.{◌≡◌, IfOk, unwrap_or};
ghost use Rattle.std.specs.Option.{option_copied, option_map_or};
ghost use Rattle.std.specs.FinMap as map;
ghost use Rattle.lb_values.specs.declared.value.Value.TheVariants.{Absent, Text};
ghost use Rattle.lb_model.specs.Settings.{State as StateOf, look, or_number};
ghost use Rattle.lb_cells.specs.StateCells.{told_parameter};

use lb_base::{Moment, Name, NoMemory};
use lb_model::World;
use lb_rows::Parameter;
use lb_values::{Cell, Value};

/// What a cell tells, where `held` is what the state stores for it. Files are not copied.
#[inline(always)]
pub fn tell(world: &World, cell: &Cell, held: Option<&Value>) -> Result<Value, NoMemory>
    ensures { IfOk result (λ v. (f : StateOf) → f cell.now ≡ unwrap_or (option_copied held.entry) Absent → look world.now f cell.now ≡ v) }
{
    match cell {
        Cell::Cat(_) => category_value(held),
        Cell::Job => Ok(Value::Name(world.main.clone()?)),
        Cell::Prefix => Ok(Value::Name(world.prefix.clone()?)),
        Cell::Steps => Ok(Value::Steps(world.steps)),
        Cell::File(name) => tell_file(world, name),
        Cell::Par(parameter) => tell_parameter(world.moment, *parameter, held),
        _ => held_value(held),
    }
}

// What the state holds for a code, which is nearly always a category, and then copied here.
#[inline(always)]
fn category_value(held: Option<&Value>) -> Result<Value, NoMemory>
    ensures { IfOk result (λ v. unwrap_or (option_copied held.entry) Absent ≡ v) }
{
    match held {
        Some(Value::Category(category)) => Ok(Value::Category(*category)),
        _ => held_value(held),
    }
}

// The bytes of a file, which are shared.
fn tell_file(world: &World, name: &Name) -> Result<Value, NoMemory>
    ensures { IfOk result (λ v. option_map_or Text (map.get world.now.files name.now) Absent ≡ v) }
{
    match world.files.shared(name) {
        Some(bytes) => Ok(Value::Text(bytes.clone()?)),
        None => Ok(Value::Absent),
    }
}

// What the state holds.
fn held_value(held: Option<&Value>) -> Result<Value, NoMemory>
    ensures { IfOk result (λ v. unwrap_or (option_copied held.entry) Absent ≡ v) }
{
    match held {
        Some(value) => Ok(value.clone()?),
        None => Ok(Value::Absent),
    }
}

// What a parameter holds; one of the date, while the state has no value for it, the moment's number.
fn tell_parameter(
    moment: Moment,
    parameter: Parameter,
    held: Option<&Value>,
) -> Result<Value, NoMemory>
    ensures { IfOk result (λ v. told_parameter moment parameter (unwrap_or (option_copied held.entry) Absent) ≡ v) }
{
    match parameter {
        Parameter::Year => held_or_number(held, moment.year),
        Parameter::Month => held_or_number(held, u16::from(moment.month)),
        Parameter::Day => held_or_number(held, u16::from(moment.day)),
        Parameter::Time => held_or_number(held, moment.minutes),
        _ => held_value(held),
    }
}

// What the state holds, or the number where that is nothing.
fn held_or_number(held: Option<&Value>, number: u16) -> Result<Value, NoMemory>
    ensures { IfOk result (λ v. or_number (unwrap_or (option_copied held.entry) Absent) number ≡ v) }
{
    match held {
        None => Ok(Value::Number(i32::from(number))),
        Some(Value::Absent) => Ok(Value::Number(i32::from(number))),
        Some(value) => Ok(value.clone()?),
    }
}
