//! Commands on lines: `read STATE HEX` shows the tokens of a line, which is given by its bytes in hexadecimal digits, in a state
//! N, M or S; `lines HEX` shows the lines of a text.
ghost use Rattle.std.specs.Prelude.{◌≡◌, IfOk};

use crate::numbers::bytes;
use crate::shown::{category_text, show_hex};
use crate::stop::Stop;
use lb_base::{Bytes, Tok};
use lb_cells::{Direct, State};
use lb_model::{Read, ReaderState, World};
use lb_tokens::{LineReader, Lines, next, source_line};
use std::alloc::Global;
use std::fmt::Write;

/// Shows what comes of a command, or answers false if it is none of these.
pub fn show(
    alloc: Global,
    words: &[&str],
    world: &World,
    state: &mut State,
    out: &mut String,
) -> Result<bool, Stop> {
    match *words {
        ["read", begin, line] => show_tokens(
            alloc,
            world,
            state,
            reader(begin, bytes(alloc, line)?)?,
            out,
        )?,
        ["read", begin] => show_tokens(
            alloc,
            world,
            state,
            reader(begin, Bytes::new(alloc))?,
            out,
        )?,
        ["lines", text] => show_lines(alloc, bytes(alloc, text)?.as_slice(), out)?,
        ["lines"] => show_lines(alloc, &[], out)?,
        _ => return Ok(false),
    }
    Ok(true)
}

fn reader(state: &str, line: Bytes) -> Result<LineReader, Stop>
    ensures { IfOk result (λ reader. reader.at ≡ 0) }
{
    let state = match state {
        "N" => ReaderState::NewLine,
        "M" => ReaderState::MidLine,
        "S" => ReaderState::SkipBlanks,
        _ => return Err(Stop::Command),
    };
    Ok(LineReader { line, at: 0, state })
}

/// Shows the tokens of a line, and how it ends.
fn show_tokens(
    alloc: Global,
    world: &World,
    state: &mut State,
    reader: LineReader,
    out: &mut String,
) -> Result<(), Stop>
    requires { reader.at ≡ 0 }
{
    let mut reader = reader;
    let mut cells = Direct::over(world, state);
    for _ in 0..=reader.line.len() {
        match next(alloc, &mut reader, &mut cells) {
            Ok(Read::Tok(token)) => show_token(&token, out)?,
            Ok(Read::EndOfLine) => {
                writeln!(out, "end")?;
                return Ok(());
            }
            Err(lb_base::Stop::Fault(_)) => {
                writeln!(out, "invalid")?;
                return Ok(());
            }
            Err(_) => return Err(Stop::Memory),
        }
    }
    Err(Stop::Command)
}

fn show_token(token: &Tok, out: &mut String) -> Result<(), Stop> {
    match token {
        Tok::Char(category, code) => {
            let name = category_text(*category);
            write!(out, "{name}:{code} ")?;
        }
        Tok::Word(name) => {
            write!(out, "word:")?;
            show_hex(name.as_slice(), out)?;
            write!(out, " ")?;
        }
        Tok::Active(code) => write!(out, "active:{code} ")?,
        Tok::Param(number) => write!(out, "parameter:{number} ")?,
    }
    Ok(())
}

/// Shows the lines of a text, each as it is and as it is read.
fn show_lines(alloc: Global, text: &[u8], out: &mut String) -> Result<(), Stop> {
    let mut lines = Lines::of(text);
    for _ in 0..=text.len() {
        let Some(line) = lines.next_line() else {
            writeln!(out, "no more")?;
            return Ok(());
        };
        show_hex(line, out)?;
        write!(out, ": ")?;
        show_hex(source_line(alloc, line)?.as_slice(), out)?;
        writeln!(out)?;
    }
    Err(Stop::Command)
}
