//! Chapters of plain words.
ghost use Rattle.std.specs.Prelude.{◌≡◌, true};
ghost use Rattle.lb_plain.specs.Parts.{is_allowed, may_follow};
ghost use Rattle.lb_model_book.specs.PlainForm.{is_plain_text, is_plain_line, is_spaced};

use lb_tokens::split_line;

const MOST_LINES: usize = 40;

const MOST_CHARACTERS: usize = 60;

/// Whether a chapter has at most 40 lines of plain words, with empty lines between them.
pub fn is_plain_text(text: &[u8]) -> bool
    ensures { result ≡ is_plain_text text.now }
{
    let mut rest = text;
    let mut count = 0;
    let mut behind_text = false;
    while !rest.is_empty() {
        let (line, next) = split_line(rest);
        if !is_allowed(line, behind_text, count) {
            return false;
        }
        behind_text = !line.is_empty();
        count += usize::from(behind_text);
        rest = next;
    }
    true
}

// Whether a line may stand in a chapter, behind so many lines that have text.
fn is_allowed(line: &[u8], behind_text: bool, count: usize) -> bool
    ensures { result ≡ is_allowed line.now behind_text count }
{
    is_plain_line(line) && (line.is_empty() || !behind_text && count < MOST_LINES)
}

// Whether a line is short, and has plain words or nothing.
fn is_plain_line(line: &[u8]) -> bool
    ensures { result ≡ is_plain_line line.now }
{
    line.len() <= MOST_CHARACTERS && is_spaced(line)
}

// Letters, digits and single spaces, and no space at the start.
fn is_spaced(line: &[u8]) -> bool
    ensures { result ≡ is_spaced true line.now }
{
    let mut behind_space = true;
    for byte in line {
        if !may_follow(*byte, behind_space) {
            return false;
        }
        behind_space = *byte == b' ';
    }
    true
}

// Whether a character may stand behind a space, or behind none.
fn may_follow(byte: u8, behind_space: bool) -> bool
    ensures { result ≡ may_follow byte behind_space }
{
    if byte == b' ' {
        !behind_space
    } else {
        byte.is_ascii_alphanumeric()
    }
}
