//! What a scan is given, as a command writes it: `.HEX` characters with the categories that they have at the start, `cCATEGORY:CODE` a
//! character, `wHEX` a control sequence, `aCODE` an active character; `nNUMBER`, `dLENGTH` and `gWIDTH,STRETCH,ORDER,SHRINK,ORDER` a
//! quantity, `q` that none begins there; `e` the end of the piece.
use crate::numbers::{byte, bytes, character, glue, name, number};
use crate::stop::Stop;
use lb_base::{Category, Tok};
use lb_model_grammar::{Given, Quantity};
use std::alloc::Global;

/// The items of a command, one by one: a word of bytes is as many as it has bytes.
pub(crate) fn items(alloc: Global, words: &[&str]) -> Result<Vec<Given>, Stop> {
    let mut items = Vec::new(alloc);
    for word in words {
        match word.strip_prefix('.') {
            Some(text) => push_text(bytes(alloc, text)?.as_slice(), &mut items)?,
            None => items.push(item(alloc, word)?)?,
        }
    }
    Ok(items)
}

fn push_text(text: &[u8], items: &mut Vec<Given>) -> Result<(), Stop> {
    for code in text {
        items.push(Given::Tok(token_at_start(*code)))?;
    }
    Ok(())
}

/// The token that a character is at the start, of those that stand for one.
pub(crate) fn token_at_start(code: u8) -> Tok {
    if code == b'~' {
        return Tok::Active(code);
    }
    Tok::Char(category_at_start(code), code)
}

fn category_at_start(code: u8) -> Category {
    match code {
        b' ' => Category::Space,
        b'a'..=b'z' | b'A'..=b'Z' => Category::Letter,
        b'{' => Category::BeginGroup,
        b'}' => Category::EndGroup,
        b'$' => Category::MathShift,
        b'&' => Category::AlignmentTab,
        b'#' => Category::Parameter,
        b'^' => Category::Superscript,
        b'_' => Category::Subscript,
        _ => Category::Other,
    }
}

fn item(alloc: Global, word: &str) -> Result<Given, Stop> {
    let mut chars = word.chars();
    let kind = chars.next();
    let rest = chars.as_str();
    match kind {
        Some('c') => {
            let (category, code) = character(rest)?;
            Ok(Given::Tok(Tok::Char(category, code)))
        }
        Some('w') => Ok(Given::Tok(Tok::Word(name(alloc, rest)?))),
        Some('a') => Ok(Given::Tok(Tok::Active(byte(rest)?))),
        Some('n') => Ok(Given::Quantity(Quantity::Number(number(rest)?))),
        Some('d') => Ok(Given::Quantity(Quantity::Dimen(number(rest)?))),
        Some('g') => Ok(Given::Quantity(Quantity::Skip(glue(alloc, rest)?))),
        Some('q') => Ok(Given::Quantity(Quantity::NotOne)),
        Some('e') => Ok(Given::End),
        _ => Err(Stop::Command),
    }
}
