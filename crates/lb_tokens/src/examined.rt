//! The characters of a line, once two marks are replaced (TeXbook, chapter 8; tex.web, part 24, section 352).
ghost use Rattle.std.specs.Prelude.{◌≡◌, ◌<◌, ◌≤◌, ◌+◌, ◌∷◌, drop, length, get_or, IfOk, OnOk, IfSome, true};
ghost use Rattle.std.specs.Option.{option_map};
ghost use Rattle.lb_model.specs.Settings.{Setting};
ghost use Rattle.lb_model.specs.Told.{Told};
ghost use Rattle.lb_model.specs.Tokens.{categories, characters, digit_value, is_hexadecimal, is_superscript, noted_codes, shifted};
ghost use Rattle.lb_tokens.specs.Parts.{character_of, first_character, replacement, two_marks};

use lb_base::{Category, NoMemory};
use lb_model::{Cells, reads};

/// A character of a line, and where the line goes on behind it.
#[derive(Clone, Copy)]
pub struct Examined {
    pub code: u8,
    pub category: Category,
    pub after: usize,
}

/// The character that stands at a place of a line: where it and what follows are two marks, it is the code for which they stand.
#[inline(always)]
pub fn examine<C: Cells>(line: &[u8], at: usize, cats: &mut C) -> Result<Examined, NoMemory>
    requires { at < length line.now }
    ensures told { Told C.Cells cats.new cats.old }
    ensures character { IfOk result (λ e. (p : Setting) → C.agrees cats.new p → characters (categories p (C.meaning cats.old p)) (drop at line.now) ≡ character_of e line.now (first_character (categories p (C.meaning cats.old p)) (drop at line.now)).examined ∷ characters (categories p (C.meaning cats.old p)) (drop e.after line.now)) }
    ensures notes { OnOk result ((p : Setting) → C.agrees cats.new p → C.notes cats.new ≡ option_map (noted_codes (first_character (categories p (C.meaning cats.old p)) (drop at line.now)).examined) (C.notes cats.old)) }
    ensures grows { IfOk result (λ e. at < e.after) }
    ensures within { IfOk result (λ e. e.after ≤ length line.now) }
    ensures unmarked { IfOk result (λ e. e.after ≡ at + 1 → e.code ≡ get_or line.now at 0) }
{
    let mut code = line[at];
    let mut after = at + 1;
    loop {
        let category = reads::category(cats, code)?;
        match replacement(category, code, &line[after..]) {
            None => {
                return Ok(Examined {
                    code,
                    category,
                    after,
                });
            }
            Some((result, width)) => {
                code = result;
                after += width;
            }
        }
    }
}

// The code for which a character and the text behind it stand, if they are two marks, and how many bytes of that text are taken.
#[inline(always)]
fn replacement(category: Category, code: u8, text: &[u8]) -> Option<(u8, usize)>
    ensures is { result ≡ replacement category code text.now }
    ensures width { IfSome result (λ r. 0 < r.1) }
    ensures within { IfSome result (λ r. r.1 ≤ length text.now) }
{
    if is_superscript(category) {
        two_marks(code, text)
    } else {
        None
    }
}

#[cold]
fn two_marks(mark: u8, text: &[u8]) -> Option<(u8, usize)>
    ensures is { result ≡ two_marks mark text.now }
    ensures width { IfSome result (λ r. 0 < r.1) }
    ensures within { IfSome result (λ r. r.1 ≤ length text.now) }
{
    match text {
        [second, a, b, ..] if *second == mark && (is_hexadecimal(*a) && is_hexadecimal(*b)) => {
            Some((16 * digit_value(*a) + digit_value(*b), 3))
        }
        [second, a, ..] if *second == mark && *a < 128 => Some((shifted(*a), 2)),
        _ => None,
    }
}

#[inline(always)]
fn is_superscript(category: Category) -> bool
    ensures { result ≡ is_superscript category }
{
    matches!(category, Category::Superscript)
}

// Whether a character is a digit or one of `a` to `f`.
fn is_hexadecimal(code: u8) -> bool
    ensures { result ≡ is_hexadecimal code }
{
    (b'0' <= code && code <= b'9') || (b'a' <= code && code <= b'f')
}

fn digit_value(digit: u8) -> u8
    requires { is_hexadecimal digit ≡ true }
    ensures value { result ≡ digit_value digit }
    ensures small { result < 16 }
{
    if digit <= b'9' {
        digit - b'0'
    } else {
        digit - 87
    }
}

fn shifted(code: u8) -> u8
    requires { code < 128 }
    ensures { result ≡ shifted code }
{
    if code < 64 { code + 64 } else { code - 64 }
}
