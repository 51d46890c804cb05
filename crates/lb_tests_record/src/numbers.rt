//! The numbers and names of a command.
ghost use Rattle.std.specs.Prelude.{◌<◌, IfOk};

use crate::stop::Stop;
use lb_base::{Bytes, Name};
use std::alloc::Global;

pub(crate) fn number(word: &str) -> Result<i32, Stop> {
    word.parse::<i32>().map_err(|_| Stop::Command)
}

/// A code of a character, or a register.
pub(crate) fn byte(word: &str) -> Result<u8, Stop> {
    word.parse::<u8>().map_err(|_| Stop::Command)
}

pub(crate) fn count(word: &str) -> Result<usize, Stop> {
    word.parse::<usize>().map_err(|_| Stop::Command)
}

/// The name that a word of hexadecimal digits, two to the byte, stands for.
pub(crate) fn name(alloc: Global, word: &str) -> Result<Name, Stop> {
    let mut bytes = Bytes::new(alloc);
    for pair in word.as_bytes().chunks_exact(2) {
        bytes.push(digit(pair[0])? * 16 + digit(pair[1])?)?;
    }
    Ok(Name::from_slice(alloc, bytes.as_slice())?)
}

fn digit(code: u8) -> Result<u8, Stop>
    ensures { IfOk result (λ digit. digit < 16) }
{
    match code {
        b'0'..=b'9' => Ok(code - b'0'),
        b'a'..=b'f' => Ok(code - b'a' + 10),
        _ => Err(Stop::Command),
    }
}
