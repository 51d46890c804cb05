//! Tokens as characters, and characters as tokens.
ghost use Rattle.std.specs.Prelude.{◌≡◌, IfOk};
ghost use Rattle.lb_model_grammar.specs.Printed.{characters_of, printed, printed_as};

use lb_base::{Bytes, Category, NoMemory, Tok, TokList};
use std::alloc::{AllocError, Global};

fn printed_as(code: u8) -> Tok
    ensures { result ≡ printed_as code }
{
    match code {
        b' ' => Tok::Char(Category::Space, b' '),
        _ => Tok::Char(Category::Other, code),
    }
}

/// A text as the tokens that a command prints: each character is of category 12, but a space is a space (tex.web, section 464).
pub fn printed(alloc: Global, text: &[u8]) -> Result<TokList, NoMemory>
    ensures { IfOk result (λ toks. toks ≡ printed text.now) }
{
    let mut toks = TokList::new(alloc);
    for code in text {
        toks.push(printed_as(*code))?;
    }
    Ok(toks)
}

/// The characters of a token, as `\string` prints them: an escape before a control sequence, and `#` before the number of a parameter. A
/// parameter over 207, which no macro has, has no characters: the answer is then the one for want of memory.
pub fn characters_of(alloc: Global, tok: &Tok) -> Result<Bytes, NoMemory>
    ensures { IfOk result (λ text. text ≡ characters_of tok.now) }
{
    match tok {
        Tok::Char(_, code) => Bytes::from_slice(alloc, &[*code]),
        Tok::Word(name) => {
            let mut text = Bytes::from_slice(alloc, b"\\")?;
            text.extend_from_slice(name.as_slice())?;
            Ok(text)
        }
        Tok::Active(code) => Bytes::from_slice(alloc, &[*code]),
        Tok::Param(number) => match number.checked_add(b'0') {
            Some(digit) => Bytes::from_slice(alloc, &[b'#', digit]),
            None => Err(AllocError),
        },
    }
}
