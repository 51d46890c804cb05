//! Token lists of a case: a text within a line, in hexadecimal digits, with the categories of the start, where `#1` to `#9` are parameters
//! and `##` is one character; `_` is the empty one.
use crate::numbers::bytes;
use crate::stop::Stop;
use lb_base::{Category, Tok, TokList};
use lb_model::{Cells, Read};
use lb_tokens::{LineReader, next};
use std::alloc::Global;

/// The tokens of a text.
pub(crate) fn tokens<C: Cells>(alloc: Global, cells: &mut C, word: &str) -> Result<TokList, Stop> {
    let text = bytes(alloc, word)?;
    let most = text.len();
    let mut reader = LineReader::of(text);
    let mut list = TokList::new(alloc);
    for _ in 0..most {
        match token(alloc, &mut reader, cells)? {
            Some(Tok::Char(Category::Parameter, _)) => {
                list.push(parameter(token(alloc, &mut reader, cells)?)?)?
            }
            Some(tok) => list.push(tok)?,
            None => return Ok(list),
        }
    }
    Ok(list)
}

/// The next token of the text, if there is one.
fn token<C: Cells>(
    alloc: Global,
    reader: &mut LineReader,
    cells: &mut C,
) -> Result<Option<Tok>, Stop> {
    if reader.at > reader.line.len() {
        return Err(Stop::Command);
    }
    match next(alloc, reader, cells) {
        Ok(Read::Tok(tok)) => Ok(Some(tok)),
        Ok(Read::EndOfLine) => Ok(None),
        Err(_) => Err(Stop::Command),
    }
}

/// What stands for `#` and the token behind it.
fn parameter(behind: Option<Tok>) -> Result<Tok, Stop> {
    match behind {
        Some(Tok::Char(Category::Parameter, code)) => Ok(Tok::Char(Category::Parameter, code)),
        Some(Tok::Char(Category::Other, code)) if b'1' <= code && code <= b'9' => {
            Ok(Tok::Param(code - b'0'))
        }
        _ => Err(Stop::Command),
    }
}
