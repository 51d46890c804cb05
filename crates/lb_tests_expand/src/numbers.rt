//! The numbers, names and glue of a case.
ghost use Rattle.std.specs.Prelude.{◌<◌, IfOk};

use crate::stop::Stop;
use lb_base::{Bytes, Category, Glue, Name, Order};
use lb_values::category_at;
use std::alloc::Global;

/// A number, or a length in scaled points.
pub(crate) fn number(word: &str) -> Result<i32, Stop> {
    word.parse::<i32>().map_err(|_| Stop::Command)
}

/// A code of a character, or a register.
pub(crate) fn byte(word: &str) -> Result<u8, Stop> {
    word.parse::<u8>().map_err(|_| Stop::Command)
}

/// How many steps are left, or the number of a line.
pub(crate) fn count(word: &str) -> Result<u64, Stop> {
    word.parse::<u64>().map_err(|_| Stop::Command)
}

/// The bytes that a word of hexadecimal digits, two to the byte, stands for.
pub(crate) fn bytes(alloc: Global, word: &str) -> Result<Bytes, Stop> {
    let mut bytes = Bytes::new(alloc);
    for pair in word.as_bytes().chunks_exact(2) {
        bytes.push(digit(pair[0])? * 16 + digit(pair[1])?)?;
    }
    Ok(bytes)
}

fn digit(code: u8) -> Result<u8, Stop>
    ensures { IfOk result (λ digit. digit < 16) }
{
    match code {
        b'0'..=b'9' => Ok(code - b'0'),
        b'a'..=b'f' => Ok(code - b'a' + 10),
        _ => Err(Stop::Command),
    }
}

/// The name that a word of hexadecimal digits stands for.
pub(crate) fn name(alloc: Global, word: &str) -> Result<Name, Stop> {
    let bytes = bytes(alloc, word)?;
    Ok(Name::from_slice(alloc, bytes.as_slice())?)
}

/// A category by its code.
pub(crate) fn category(word: &str) -> Result<Category, Stop> {
    category_at(number(word)?).ok_or(Stop::Command)
}

/// Glue: its width, its stretch and the order of that, its shrink and the order of that, with `,` between.
pub(crate) fn glue(alloc: Global, word: &str) -> Result<Glue, Stop> {
    let parts: Vec<&str> = word.split(',').collect(alloc)?;
    match *parts.as_slice() {
        [width, stretch, stretch_order, shrink, shrink_order] => Ok(Glue {
            width: number(width)?,
            stretch: number(stretch)?,
            stretch_order: order(stretch_order)?,
            shrink: number(shrink)?,
            shrink_order: order(shrink_order)?,
        }),
        _ => Err(Stop::Command),
    }
}

fn order(word: &str) -> Result<Order, Stop> {
    match word {
        "0" => Ok(Order::Finite),
        "1" => Ok(Order::Fil),
        "2" => Ok(Order::Fill),
        "3" => Ok(Order::Filll),
        _ => Err(Stop::Command),
    }
}
