//! Commands that do one thing many times, to be timed: `gets COUNT` looks at the categories of so many codes, and
//! `reads COUNT HEX` reads the tokens of a line so many times.
ghost use Rattle.std.specs.Prelude.{◌≡◌};

use crate::numbers::{bytes, count};
use crate::stop::Stop;
use lb_base::{Bytes, Category};
use lb_cells::{Direct, State};
use lb_model::reads::category;
use lb_model::{Cells, Read, ReaderState, World};
use lb_tokens::{LineReader, next};
use std::alloc::Global;
use std::fmt::Write;

/// Shows what comes of a command, or answers false if it is none of these.
pub fn show(
    alloc: Global,
    words: &[&str],
    world: &World,
    state: &mut State,
    out: &mut String,
) -> Result<bool, Stop> {
    let mut cells = Direct::over(world, state);
    match *words {
        ["gets", times] => {
            let letters = letters_among(&mut cells, count(times)?)?;
            writeln!(out, "{letters} letters")?;
        }
        ["reads", times, line] => {
            let line = bytes(alloc, line)?;
            let tokens = tokens_read(alloc, &mut cells, count(times)?, line.as_slice())?;
            writeln!(out, "{tokens} tokens")?;
        }
        _ => return Ok(false),
    }
    Ok(true)
}

/// How many of the codes from 0 on, in a round of 256, are letters.
fn letters_among<C: Cells>(cells: &mut C, times: usize) -> Result<u64, Stop> {
    let mut letters = 0u64;
    for time in 0..times {
        if category(cells, (time % 256) as u8)? == Category::Letter {
            letters = letters.saturating_add(1);
        }
    }
    Ok(letters)
}

/// How many tokens there are where a line is read so many times.
fn tokens_read<C: Cells>(
    alloc: Global,
    cells: &mut C,
    times: usize,
    line: &[u8],
) -> Result<u64, Stop> {
    let mut tokens = 0u64;
    for _ in 0..times {
        let reader = LineReader {
            line: Bytes::from_slice(alloc, line)?,
            at: 0,
            state: ReaderState::NewLine,
        };
        tokens = tokens.saturating_add(tokens_of(alloc, cells, reader)?);
    }
    Ok(tokens)
}

fn tokens_of<C: Cells>(alloc: Global, cells: &mut C, reader: LineReader) -> Result<u64, Stop>
    requires { reader.at ≡ 0 }
{
    let mut reader = reader;
    let mut tokens = 0u64;
    for _ in 0..=reader.line.len() {
        match next(alloc, &mut reader, cells) {
            Ok(Read::Tok(_)) => tokens = tokens.saturating_add(1),
            Ok(Read::EndOfLine) => return Ok(tokens),
            Err(_) => return Err(Stop::Command),
        }
    }
    Ok(tokens)
}
