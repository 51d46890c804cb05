//! Cells, values and meanings as commands write them, and as they are shown: a cell by its kind and key, as `count:5`, `par:year` or
//! `word:HEX`; a value as `n:NUMBER`, `d:LENGTH` or `g:` and glue; a meaning as `row:HEX`, `char:CATEGORY:CODE`, `number:CODE`, or as a cell.
use crate::numbers::{byte, bytes, character, glue, name, number};
use crate::shown::{show_glue, show_hex};
use crate::stop::Stop;
use lb_base::Tok;
use lb_model_grammar::Quantity;
use lb_rows::{Command, Parameter};
use lb_values::{Cell, Meaning, Register, Value, category_code};
use std::alloc::Global;
use std::fmt::Write;

/// The cell of a word, as `count:5`.
pub(crate) fn cell(alloc: Global, word: &str) -> Result<Cell, Stop> {
    let (kind, key) = halves(word)?;
    match kind {
        "word" => Ok(Cell::Word(name(alloc, key)?)),
        "cat" => Ok(Cell::Cat(byte(key)?)),
        "lc" => Ok(Cell::Lc(byte(key)?)),
        "uc" => Ok(Cell::Uc(byte(key)?)),
        "sf" => Ok(Cell::Sf(byte(key)?)),
        _ => Ok(register(kind, key)?.cell()),
    }
}

/// A register, or a parameter.
fn register(kind: &str, key: &str) -> Result<Register, Stop> {
    match kind {
        "count" => Ok(Register::Count(byte(key)?)),
        "dimen" => Ok(Register::Dimen(byte(key)?)),
        "skip" => Ok(Register::Skip(byte(key)?)),
        "toks" => Ok(Register::Toks(byte(key)?)),
        "par" => match Parameter::named(key.as_bytes()) {
            Some(parameter) => Ok(Register::Par(parameter)),
            None => Err(Stop::Command),
        },
        _ => Err(Stop::Command),
    }
}

/// The quantity of a word, as `n:5`.
pub(crate) fn quantity(alloc: Global, word: &str) -> Result<Quantity, Stop> {
    let (kind, value) = halves(word)?;
    match kind {
        "n" => Ok(Quantity::Number(number(value)?)),
        "d" => Ok(Quantity::Dimen(number(value)?)),
        "g" => Ok(Quantity::Skip(glue(alloc, value)?)),
        _ => Err(Stop::Command),
    }
}

/// The meaning of a word, as `number:65`.
pub(crate) fn meaning(alloc: Global, word: &str) -> Result<Meaning, Stop> {
    let (kind, key) = halves(word)?;
    match kind {
        "row" => match Command::named(bytes(alloc, key)?.as_slice()) {
            Some(command) => Ok(Meaning::Row(command)),
            None => Err(Stop::Command),
        },
        "char" => {
            let (category, code) = character(key)?;
            Ok(Meaning::Char(category, code))
        }
        "number" => Ok(Meaning::Number(byte(key)?)),
        _ => Ok(Meaning::Register(register(kind, key)?)),
    }
}

/// What stands before the first `:`, and what stands behind it.
pub(crate) fn halves(word: &str) -> Result<(&str, &str), Stop> {
    word.split_once(':').ok_or(Stop::Command)
}

/// Shows what a cell holds.
pub(crate) fn show_value(value: &Value, out: &mut String) -> Result<(), Stop> {
    match value {
        Value::Absent => write!(out, "absent")?,
        Value::Number(number) => write!(out, "n:{number}")?,
        Value::Dimen(length) => write!(out, "d:{length}")?,
        Value::Glue(glue) => {
            write!(out, "g:")?;
            show_glue(*glue, out)?;
        }
        Value::Category(category) => {
            let code = category_code(*category);
            write!(out, "cat:{code}")?;
        }
        Value::Code(code) => write!(out, "code:{code}")?,
        Value::Meaning(meaning) => show_meaning(meaning, out)?,
        _ => write!(out, "other")?,
    }
    Ok(())
}

fn show_meaning(meaning: &Meaning, out: &mut String) -> Result<(), Stop> {
    match meaning {
        Meaning::Row(command) => {
            write!(out, "row:")?;
            show_hex(command.name().as_bytes(), out)?;
        }
        Meaning::Char(category, code) => {
            let category = category_code(*category);
            write!(out, "char:{category}:{code}")?;
        }
        Meaning::Number(code) => write!(out, "number:{code}")?,
        Meaning::Register(register) => show_register(*register, out)?,
        Meaning::Macro(definition) => show_body(definition.get().body.as_slice(), out)?,
    }
    Ok(())
}

fn show_register(register: Register, out: &mut String) -> Result<(), Stop> {
    match register {
        Register::Count(number) => write!(out, "count:{number}")?,
        Register::Dimen(number) => write!(out, "dimen:{number}")?,
        Register::Skip(number) => write!(out, "skip:{number}")?,
        Register::Toks(number) => write!(out, "toks:{number}")?,
        Register::Par(parameter) => {
            let name = parameter.name();
            write!(out, "par:{name}")?;
        }
    }
    Ok(())
}

/// Shows the body of a macro, which is one letter.
fn show_body(body: &[Tok], out: &mut String) -> Result<(), Stop> {
    match body {
        [Tok::Char(_, code)] => write!(out, "macro:{code}")?,
        _ => write!(out, "other")?,
    }
    Ok(())
}
