//! Cells as commands write them, by kind and key, as `count:5`, `par:year`, `word:HEX` or `job`; and the values that they are given by a
//! number: a word's meaning is the character number.
ghost use Rattle.std.specs.Prelude.{◌≡◌, IfOk, true};
ghost use Rattle.lb_model.specs.Ranges.{fits, is_settable};

use crate::numbers::{byte, name, number};
use crate::stop::Stop;
use lb_model::within::is_number;
use lb_rows::Parameter;
use lb_values::{Cell, Meaning, Value, category_at};
use std::alloc::Global;

/// The cell of a word, as `count:5`.
pub(crate) fn cell(alloc: Global, word: &str) -> Result<Cell, Stop> {
    match word.split_once(':') {
        Some((kind, key)) => with_key(alloc, kind, key),
        None => without_key(word),
    }
}

fn with_key(alloc: Global, kind: &str, key: &str) -> Result<Cell, Stop> {
    match kind {
        "word" => Ok(Cell::Word(name(alloc, key)?)),
        "counter" => Ok(Cell::Counter(name(alloc, key)?)),
        "file" => Ok(Cell::File(name(alloc, key)?)),
        "cat" => Ok(Cell::Cat(byte(key)?)),
        "sf" => Ok(Cell::Sf(byte(key)?)),
        "lc" => Ok(Cell::Lc(byte(key)?)),
        "count" => Ok(Cell::Count(byte(key)?)),
        "par" => match Parameter::named(key.as_bytes()) {
            Some(parameter) => Ok(Cell::Par(parameter)),
            None => Err(Stop::Command),
        },
        _ => Err(Stop::Command),
    }
}

fn without_key(kind: &str) -> Result<Cell, Stop> {
    match kind {
        "job" => Ok(Cell::Job),
        "prefix" => Ok(Cell::Prefix),
        "steps" => Ok(Cell::Steps),
        "style" => Ok(Cell::Style),
        _ => Err(Stop::Command),
    }
}

/// The value that a cell is given by a word, `-` for none.
pub(crate) fn value(cell: &Cell, word: &str) -> Result<Value, Stop>
    ensures settable { IfOk result (λ v. is_settable cell.now v ≡ true) }
    ensures fits { IfOk result (λ v. fits cell.now v ≡ true) }
{
    match cell {
        Cell::Word(_) | Cell::Count(_) if word == "-" => Ok(Value::Absent),
        _ => value_of_number(cell, number(word)?),
    }
}

#[tactic(auto, unfolding(lb_rows::specs::Parameters::parameter_kind))]
fn value_of_number(cell: &Cell, number: i32) -> Result<Value, Stop>
    ensures settable { IfOk result (λ v. is_settable cell.now v ≡ true) }
    ensures fits { IfOk result (λ v. fits cell.now v ≡ true) }
{
    match cell {
        Cell::Word(_) => Ok(Value::Meaning(Meaning::Number(code(number)?))),
        Cell::Lc(_) => Ok(Value::Code(code(number)?)),
        Cell::Cat(_) => match category_at(number) {
            Some(category) => Ok(Value::Category(category)),
            None => Err(Stop::Command),
        },
        Cell::Sf(_) if 0 <= number && number <= 32767 => Ok(Value::Number(number)),
        Cell::Style if 0 <= number && number <= 5 => Ok(Value::Number(number)),
        Cell::Count(_) if is_number(number) => Ok(Value::Number(number)),
        Cell::Counter(_) if is_number(number) => Ok(Value::Number(number)),
        Cell::Par(Parameter::Year) if is_number(number) => Ok(Value::Number(number)),
        Cell::Par(Parameter::Tolerance) if is_number(number) => Ok(Value::Number(number)),
        _ => Err(Stop::Command),
    }
}

fn code(number: i32) -> Result<u8, Stop> {
    u8::try_from(number).map_err(|_| Stop::Command)
}
