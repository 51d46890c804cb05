//! Cells that are set at the start of a case, by kind and key, as `count.5` or `word.HEX`, and their values.
use crate::meanings::meaning;
use crate::numbers::{byte, category, glue, name, number};
use crate::stop::Stop;
use crate::token_lists::tokens;
use lb_base::{Axis, Boxed, GlueSet, Order};
use lb_model::Cells;
use lb_rows::{Parameter, ParameterKind};
use lb_values::{Cell, Form, Register, Shared, Value};
use sqlite_items::Items;
use std::alloc::Global;

/// The cell of a word.
pub(crate) fn cell(alloc: Global, word: &str) -> Result<Cell, Stop> {
    match word.split_once('.') {
        Some(("word", key)) => Ok(Cell::Word(name(alloc, key)?)),
        Some(("counter", key)) => Ok(Cell::Counter(name(alloc, key)?)),
        Some((kind, key)) => cell_of_code(kind, key),
        None => cell_without_key(word),
    }
}

fn cell_of_code(kind: &str, key: &str) -> Result<Cell, Stop> {
    match kind {
        "active" => Ok(Cell::Active(byte(key)?)),
        "cat" => Ok(Cell::Cat(byte(key)?)),
        "lc" => Ok(Cell::Lc(byte(key)?)),
        "uc" => Ok(Cell::Uc(byte(key)?)),
        "sf" => Ok(Cell::Sf(byte(key)?)),
        "box" => Ok(Cell::Boxed(byte(key)?)),
        _ => Ok(register(kind, key)?.cell()),
    }
}

fn cell_without_key(kind: &str) -> Result<Cell, Stop> {
    match kind {
        "pageform" => Ok(Cell::PageForm),
        "style" => Ok(Cell::Style),
        "size" => Ok(Cell::Size),
        _ => Err(Stop::Command),
    }
}

/// A register, or a parameter.
pub(crate) fn register(kind: &str, key: &str) -> Result<Register, Stop> {
    match kind {
        "count" => Ok(Register::Count(byte(key)?)),
        "dimen" => Ok(Register::Dimen(byte(key)?)),
        "skip" => Ok(Register::Skip(byte(key)?)),
        "toks" => Ok(Register::Toks(byte(key)?)),
        "par" => match Parameter::named(key.as_bytes()) {
            Some(parameter) => Ok(Register::Par(parameter)),
            None => Err(Stop::Command),
        },
        _ => Err(Stop::Command),
    }
}

/// The value that a word gives a cell.
pub(crate) fn value<C: Cells>(
    alloc: Global,
    cells: &mut C,
    cell: &Cell,
    word: &str,
) -> Result<Value, Stop> {
    match cell {
        Cell::Word(_) | Cell::Active(_) if word == "none" => Ok(Value::Absent),
        Cell::Word(_) | Cell::Active(_) => Ok(Value::Meaning(meaning(alloc, cells, word)?)),
        Cell::Toks(_) => Ok(Value::Tokens(Shared::new(alloc, tokens(alloc, cells, word)?)?)),
        Cell::Boxed(_) => Ok(Value::Boxed(Shared::new(alloc, boxed(alloc, word)?)?)),
        Cell::Par(parameter) => quantity(alloc, parameter.kind(), word),
        Cell::Dimen(_) => quantity(alloc, ParameterKind::Dimension, word),
        Cell::Skip(_) => quantity(alloc, ParameterKind::Glue, word),
        Cell::Cat(_) => Ok(Value::Category(category(word)?)),
        Cell::Lc(_) | Cell::Uc(_) => Ok(Value::Code(byte(word)?)),
        Cell::PageForm => Ok(Value::Form(form(word)?)),
        _ => quantity(alloc, ParameterKind::Number, word),
    }
}

fn quantity(alloc: Global, kind: ParameterKind, word: &str) -> Result<Value, Stop> {
    match kind {
        ParameterKind::Number => Ok(Value::Number(number(word)?)),
        ParameterKind::Dimension => Ok(Value::Dimen(number(word)?)),
        ParameterKind::Glue => Ok(Value::Glue(glue(alloc, word)?)),
    }
}

fn form(word: &str) -> Result<Form, Stop> {
    match word {
        "arabic" => Ok(Form::Arabic),
        "roman" => Ok(Form::LowerRoman),
        "Roman" => Ok(Form::UpperRoman),
        "alph" => Ok(Form::LowerAlph),
        "Alph" => Ok(Form::UpperAlph),
        _ => Err(Stop::Command),
    }
}

/// An empty box by its width, height and depth.
fn boxed(alloc: Global, word: &str) -> Result<Boxed, Stop> {
    let (width, rest) = word.split_once(',').ok_or(Stop::Command)?;
    let (height, depth) = rest.split_once(',').ok_or(Stop::Command)?;
    Ok(Boxed {
        axis: Axis::Horizontal,
        items: Items::new(alloc),
        width: number(width)?,
        height: number(height)?,
        depth: number(depth)?,
        shift: 0,
        glue_set: GlueSet {
            excess: 0,
            order: Order::Finite,
        },
    })
}
