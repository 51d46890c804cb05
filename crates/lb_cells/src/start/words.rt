//! The control sequences that have a meaning at the start.
ghost use Rattle.std.specs.Prelude.{◌≡◌, OnOk, Some};
ghost use Rattle.lb_rows.specs.Commands.{command_name};
ghost use Rattle.lb_rows.specs.Parameters.{parameter_name};
ghost use Rattle.lb_values.specs.declared.cell.Cell.TheVariants as cell;
ghost use Rattle.lb_values.specs.declared.value.Value.TheVariants as value;
ghost use Rattle.lb_values.specs.Kept.{put};
ghost use Rattle.lb_maps.specs.CellMap.{at};
ghost use Rattle.lb_cells.specs.StartEntries.{commands_over, parameter_words_over};

use lb_base::{Name, NoMemory};
use lb_maps::CellMap;
use lb_rows::{COMMANDS, Command, PARAMETERS, Parameter};
use lb_values::{Cell, Meaning, Register, Value};
use std::alloc::Global;

/// Gives each command's name its meaning.
pub fn fill_commands(alloc: Global, entries: &mut CellMap<Value>) -> Result<(), NoMemory>
    ensures { OnOk result (at entries.new ≡ commands_over (at entries.old)) }
{
    let mut place = COMMANDS;
    while place > 0 {
        place -= 1;
        let command = Command::at(place);
        fill_word(alloc, entries, command.name(), Meaning::Row(command))?;
    }
    Ok(())
}

/// Gives each parameter's name its meaning.
pub fn fill_parameter_words(alloc: Global, entries: &mut CellMap<Value>) -> Result<(), NoMemory>
    ensures { OnOk result (at entries.new ≡ parameter_words_over (at entries.old)) }
{
    let mut place = PARAMETERS;
    while place > 0 {
        place -= 1;
        let parameter = Parameter::at(place);
        let meaning = Meaning::Register(Register::Par(parameter));
        fill_word(alloc, entries, parameter.name(), meaning)?;
    }
    Ok(())
}

// Gives one control sequence its meaning.
fn fill_word(
    alloc: Global,
    entries: &mut CellMap<Value>,
    name: &str,
    meaning: Meaning,
) -> Result<(), NoMemory>
    ensures { OnOk result (at entries.new ≡ put (cell.Word name.now) (Some (value.Meaning meaning)) (at entries.old)) }
{
    let name = Name::from_slice(alloc, name.as_bytes())?;
    entries.insert(Cell::Word(name), Value::Meaning(meaning))?;
    Ok(())
}
