//! Tokens of a word, behind a dot and with commas between them: `w:NAME` a control sequence, `p:CODE` a parameter character, `c:CODE` another
//! one, `a:CODE` an active one.
use crate::stop::Stop;
use crate::words::{behind_dot, byte, name};
use lb_base::{Category, Tok, TokList};
use std::alloc::Global;

pub(crate) fn tokens(alloc: Global, word: &str) -> Result<TokList, Stop> {
    let mut toks = TokList::new(alloc);
    let list = behind_dot(word)?;
    if list.is_empty() {
        return Ok(toks);
    }
    for part in list.split(',') {
        toks.push(token(alloc, part)?)?;
    }
    Ok(toks)
}

fn token(alloc: Global, word: &str) -> Result<Tok, Stop> {
    match word.split_once(':') {
        Some(("w", key)) => Ok(Tok::Word(name(alloc, key)?)),
        Some(("p", key)) => Ok(Tok::Char(Category::Parameter, byte(key)?)),
        Some(("c", key)) => Ok(Tok::Char(Category::Other, byte(key)?)),
        Some(("a", key)) => Ok(Tok::Active(byte(key)?)),
        _ => Err(Stop::Command),
    }
}
