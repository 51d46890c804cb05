//! Commands on single cells: `tell KIND CELL` shows what the reading of that kind tells of the cell, `held CELL N` what the cell
//! holds once it is set to the number, and `same CELL ; CELL` whether two cells tell the same.
use crate::keys::cell;
use crate::numbers::number;
use crate::parts::{behind, part_end};
use crate::shown::show_value;
use crate::stop::Stop;
use lb_base::NoMemory;
use lb_cells::{Direct, State};
use lb_model::{Cells, World, held, reads};
use lb_values::{Cell, Value};
use std::alloc::Global;
use std::fmt::Write;

/// Shows what comes of a command, or answers false if it is none of these.
pub fn show(
    alloc: Global,
    words: &[&str],
    world: &World,
    state: &mut State,
    out: &mut String,
) -> Result<bool, Stop> {
    let mut cells = Direct::over(world, state);
    match *words {
        ["tell", kind, ref key @ ..] => {
            let value = told(&mut cells, kind, cell(alloc, key)?)?;
            show_value(&value, out)?;
        }
        ["held", ref key @ .., word] => match held(&cell(alloc, key)?, number(word)?) {
            Some(value) => show_value(&value, out)?,
            None => writeln!(out, "none")?,
        },
        ["same", ref parts @ ..] => {
            let end = part_end(parts, 0);
            let one = cells.get(&cell(alloc, &parts[..end])?)?;
            let other = cells.get(&cell(alloc, &parts[behind(parts, end)..])?)?;
            let same = one.equals(&other);
            writeln!(out, "the same: {same}")?;
        }
        _ => return Ok(false),
    }
    Ok(true)
}

/// What the reading of a kind tells of a cell.
fn told<C: Cells>(cells: &mut C, kind: &str, cell: Cell) -> Result<Value, Stop> {
    match kind {
        "category" => match cell {
            Cell::Cat(code) => Ok(Value::Category(reads::category(cells, code)?)),
            _ => Err(Stop::Command),
        },
        "factor" => match cell {
            Cell::Sf(code) => Ok(Value::Number(reads::space_factor(cells, code)?)),
            _ => Err(Stop::Command),
        },
        "number" => Ok(Value::Number(reads::number(cells, cell)?)),
        "number-if-any" => Ok(reads::number_if_any(cells, cell)?.map_or(
            Value::Absent,
            Value::Number,
        )),
        "code" => Ok(Value::Code(reads::code(cells, cell)?)),
        "style" => Ok(Value::Number(reads::style(cells)?)),
        "size" => Ok(Value::Number(reads::size(cells)?)),
        "steps" => Ok(Value::Steps(reads::steps(cells)?)),
        "dimension" => Ok(Value::Dimen(reads::dimension(cells, cell)?)),
        "glue" => Ok(Value::Glue(reads::glue(cells, cell)?)),
        _ => Ok(told_if_any(cells, kind, cell)?),
    }
}

/// The same for what a cell need not have.
fn told_if_any<C: Cells>(cells: &mut C, kind: &str, cell: Cell) -> Result<Value, NoMemory> {
    match kind {
        "meaning" => Ok(reads::meaning(cells, cell)?.map_or(Value::Absent, Value::Meaning)),
        "tokens" => Ok(reads::tokens(cells, cell)?.map_or(Value::Absent, Value::Tokens)),
        "text" => Ok(reads::text(cells, cell)?.map_or(Value::Absent, Value::Text)),
        "names" => Ok(reads::names(cells, cell)?.map_or(Value::Absent, Value::Names)),
        "name" => Ok(reads::name(cells, cell)?.map_or(Value::Absent, Value::Name)),
        "boxed" => Ok(reads::boxed(cells, cell)?.map_or(Value::Absent, Value::Boxed)),
        "label" => Ok(reads::label(cells, cell)?.map_or(Value::Absent, Value::Label)),
        "checkpoint" => Ok(reads::checkpoint(cells, cell)?.map_or(
            Value::Absent,
            Value::Checkpoint,
        )),
        "form" => Ok(reads::form(cells, cell)?.map_or(Value::Absent, Value::Form)),
        _ => Ok(reads::page_style(cells, cell)?.map_or(Value::Absent, Value::PageStyle)),
    }
}
