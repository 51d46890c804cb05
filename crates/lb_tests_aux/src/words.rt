//! The words of a command: numbers, and bytes as hexadecimal digits behind a dot, two to the byte.
ghost use Rattle.std.specs.Prelude.{◌≡◌, ◌<◌, IfOk, true};
ghost use Rattle.lb_model.specs.Ranges.{is_number};

use crate::stop::Stop;
use lb_base::{Bytes, Name};
use lb_model::within::is_number;
use std::alloc::Global;

pub(crate) fn number(word: &str) -> Result<i32, Stop> {
    word.parse::<i32>().map_err(|_| Stop::Command)
}

/// A number that a counter may have.
pub(crate) fn value(word: &str) -> Result<i32, Stop>
    ensures { IfOk result (λ n. is_number n ≡ true) }
{
    let number = number(word)?;
    if is_number(number) {
        Ok(number)
    } else {
        Err(Stop::Command)
    }
}

pub(crate) fn byte(word: &str) -> Result<u8, Stop> {
    word.parse::<u8>().map_err(|_| Stop::Command)
}

pub(crate) fn pages(word: &str) -> Result<u32, Stop> {
    word.parse::<u32>().map_err(|_| Stop::Command)
}

pub(crate) fn line(word: &str) -> Result<u64, Stop> {
    word.parse::<u64>().map_err(|_| Stop::Command)
}

/// The bytes of a word.
pub(crate) fn bytes(alloc: Global, word: &str) -> Result<Bytes, Stop> {
    let mut bytes = Bytes::new(alloc);
    for pair in behind_dot(word)?.as_bytes().chunks_exact(2) {
        bytes.push(digit(pair[0])? * 16 + digit(pair[1])?)?;
    }
    Ok(bytes)
}

/// The name of a word.
pub(crate) fn name(alloc: Global, word: &str) -> Result<Name, Stop> {
    let bytes = bytes(alloc, word)?;
    Ok(Name::from_slice(alloc, bytes.as_slice())?)
}

/// What stands behind the dot of a word.
pub(crate) fn behind_dot(word: &str) -> Result<&str, Stop> {
    match word.strip_prefix('.') {
        Some(rest) => Ok(rest),
        None => Err(Stop::Command),
    }
}

fn digit(code: u8) -> Result<u8, Stop>
    ensures { IfOk result (λ digit. digit < 16) }
{
    match code {
        b'0'..=b'9' => Ok(code - b'0'),
        b'a'..=b'f' => Ok(code - b'a' + 10),
        _ => Err(Stop::Command),
    }
}
