//! What single tokens are to numbers, dimensions and words.
ghost use Rattle.std.specs.Prelude.{◌≡◌};
ghost use Rattle.lb_model_grammar.specs.Scans.{below, class_of, digit_class, digit_of, digit_value, is_letter, is_other, is_space, letter_value, lower, or_else, sign_class};
ghost use Rattle.lb_scan.specs.Words.{letter_of};

use lb_base::{Category, Tok};
use lb_model_grammar::Class;

fn sign_class(code: u8) -> Class
    ensures { result ≡ sign_class code }
{
    match code {
        b'+' => Class::Plus,
        b'-' => Class::Minus,
        b'\'' => Class::Octal,
        b'"' => Class::Hexadecimal,
        b'`' => Class::Quote,
        b'.' => Class::Point,
        _ => Class::Other,
    }
}

fn digit_value(code: u8) -> Option<u8>
    ensures { result ≡ digit_value code }
{
    if b'0' <= code && code <= b'9' {
        Some(code - b'0')
    } else {
        None
    }
}

fn letter_value(code: u8) -> Option<u8>
    ensures { result ≡ letter_value code }
{
    if b'A' <= code && code <= b'F' {
        Some(code - 55)
    } else {
        None
    }
}

fn below(base: u8, digit: Option<u8>) -> Option<u8>
    ensures { result ≡ below base digit }
{
    match digit {
        Some(digit) if digit < base => Some(digit),
        _ => None,
    }
}

/// What a token is where a number, a dimension or glue begins.
pub(crate) fn classify(tok: &Tok) -> Class
    ensures { result ≡ class_of tok.now }
{
    match tok {
        Tok::Char(Category::Space, _) => Class::Space,
        Tok::Char(Category::Other, code) => match digit_value(*code) {
            Some(digit) => Class::Digit(digit),
            None => sign_class(*code),
        },
        Tok::Word(_) | Tok::Active(_) => Class::Command,
        _ => Class::Other,
    }
}

fn value_of(code: u8) -> Option<u8>
    ensures { result ≡ or_else (digit_value code) (letter_value code) }
{
    match digit_value(code) {
        Some(digit) => Some(digit),
        None => letter_value(code),
    }
}

/// The digit that a token is in a base.
pub(crate) fn digit_of(base: u8, tok: &Tok) -> Option<u8>
    ensures { result ≡ digit_of base tok.now }
{
    match tok {
        Tok::Char(Category::Other, code) => below(base, value_of(*code)),
        Tok::Char(Category::Letter, code) => below(base, letter_value(*code)),
        _ => None,
    }
}

pub(crate) fn is_space(tok: &Tok) -> bool
    ensures { result ≡ is_space tok.now }
{
    matches!(tok, Tok::Char(Category::Space, _))
}

pub(crate) fn is_point(tok: &Tok) -> bool
    ensures { result ≡ is_other 46 tok.now }
{
    matches!(tok, Tok::Char(Category::Other, b'.'))
}

fn lower(code: u8) -> u8
    ensures { result ≡ lower code }
{
    if b'A' <= code && code <= b'Z' {
        code + 32
    } else {
        code
    }
}

/// Whether a token is a letter, of either case and any category.
pub(crate) fn is_letter(letter: u8, tok: &Tok) -> bool
    ensures { result ≡ is_letter letter tok.now }
{
    match tok {
        Tok::Char(_, code) => lower(*code) == lower(letter),
        Tok::Active(code) => lower(*code) == lower(letter),
        Tok::Word(_) | Tok::Param(_) => false,
    }
}

/// The lower-case letter that a token is, of either case and any category; also what is no letter, as it is.
pub(crate) fn letter_of(tok: &Tok) -> Option<u8>
    ensures { result ≡ letter_of tok.now }
{
    match tok {
        Tok::Char(_, code) => Some(lower(*code)),
        Tok::Active(code) => Some(lower(*code)),
        Tok::Word(_) | Tok::Param(_) => None,
    }
}
