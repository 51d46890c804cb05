//! Token lists as they are written.
ghost use Rattle.std.specs.Prelude.{◌≡◌, ◌++◌, IfOk, OnOk};
ghost use Rattle.lb_model_journal.specs.Written.{is_symbol, written, written_name, written_token};

use lb_base::{Bytes, Category, NoMemory, Tok};
use std::alloc::{AllocError, Global};

// Whether a name is one character that is no letter.
fn is_symbol(name: &[u8]) -> bool
    ensures { result ≡ is_symbol name.now }
{
    match name {
        [byte] => !byte.is_ascii_alphabetic(),
        _ => false,
    }
}

// Writes a control sequence, a control word with a space behind it.
fn push_name(name: &[u8], text: &mut Bytes) -> Result<(), NoMemory>
    ensures { OnOk result (text.new ≡ text.old ++ written_name name.now) }
{
    text.push(b'\\')?;
    text.extend_from_slice(name)?;
    if is_symbol(name) {
        Ok(())
    } else {
        text.push(b' ')
    }
}

// Writes a token.
fn push_token(tok: &Tok, text: &mut Bytes) -> Result<(), NoMemory>
    ensures { OnOk result (text.new ≡ text.old ++ written_token tok.now) }
{
    match tok {
        Tok::Char(Category::Parameter, code) => text.extend_from_slice(&[*code, *code]),
        Tok::Char(_, code) => text.push(*code),
        Tok::Word(name) => push_name(name.as_slice(), text),
        Tok::Active(code) => text.push(*code),
        Tok::Param(number) => match number.checked_add(b'0') {
            Some(digit) => text.extend_from_slice(&[b'#', digit]),
            None => Err(AllocError),
        },
    }
}

/// Writes a token list behind a text.
pub fn push_written(toks: &[Tok], text: &mut Bytes) -> Result<(), NoMemory>
    ensures { OnOk result (text.new ≡ text.old ++ written toks.now) }
{
    for tok in toks {
        push_token(tok, text)?;
    }
    Ok(())
}

/// A token list as it is written: a control word with a space behind it, a control symbol, characters as they are, and a parameter character
/// twice (tex.web, sections 262, 263 and 294). A parameter over 207, which no macro has, is not written: the answer is then the one for want of memory.
pub fn written(alloc: Global, toks: &[Tok]) -> Result<Bytes, NoMemory>
    ensures { IfOk result (λ text. text ≡ written toks.now) }
{
    let mut text = Bytes::new(alloc);
    push_written(toks, &mut text)?;
    Ok(text)
}
