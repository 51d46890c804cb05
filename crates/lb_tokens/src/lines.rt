//! The lines of a text (TeXbook, chapter 8; tex.web, part 3).
ghost use Rattle.std.specs.Prelude.{◌≡◌, ◌∷◌, ◌<◌, ◌≤◌, [], drop, length, take, true, IfOk, IfSome, MatchOption};
ghost use Rattle.lb_model.specs.Lines.{lines_of, trimmed};
ghost use Rattle.lb_model.specs.Tokens.{cut_lines, source_line};
ghost use Rattle.lb_tokens.specs.Parts.{IsLineAt, is_at_end, after_end};

use lb_base::{Bytes, NoMemory};
use std::alloc::Global;

/// The code of the character at the end of each line.
const END_OF_LINE: u8 = 13;

/// The lines of a text that are not yet taken, one behind another. A line ends at a line feed, and so does the carriage return just before
/// one; a last line need not end so.
#[derive(Clone, Copy)]
pub struct Lines<'a> {
    pub rest: &'a [u8],
}

impl<'a> Lines<'a> {
    pub fn of(text: &'a [u8]) -> Lines<'a>
        ensures { result.rest.now ≡ text.now }
    {
        Lines { rest: text }
    }

    /// The next line, without what ends it. Takes no memory.
    pub fn next_line(&mut self) -> Option<&'a [u8]>
        ensures line { MatchOption result (cut_lines self.old.rest.now ≡ []) (λ line. cut_lines self.old.rest.now ≡ line.now ∷ cut_lines self.new.rest.now) }
        ensures shorter { IfSome result (λ line. length self.new.rest.now < length self.old.rest.now) }
    {
        if self.rest.is_empty() {
            return None;
        }
        let (end, next) = cut_line(self.rest);
        let line = &self.rest[..end];
        self.rest = &self.rest[next..];
        Some(line)
    }
}

/// A line as it is read: without the spaces at its end, and with code 13 there.
pub fn source_line(alloc: Global, line: &[u8]) -> Result<Bytes, NoMemory>
    ensures { IfOk result (λ bytes. bytes ≡ source_line line.now) }
{
    let trimmed = trim_end(line);
    let mut bytes = Vec::with_capacity(alloc, trimmed.len() + 1)?;
    bytes.extend_from_slice(trimmed)?;
    bytes.push(END_OF_LINE)?;
    Ok(Bytes::from_vec(bytes))
}

/// The first line of a text that has one, without what ends it and the spaces before that, and the text behind it.
pub fn split_line(text: &[u8]) -> (&[u8], &[u8])
    requires { 0 < length text.now }
    ensures lines { lines_of text.now ≡ result.0.now ∷ lines_of result.1.now }
    ensures shorter { length result.1.now < length text.now }
{
    let (end, next) = cut_line(text);
    (trim_end(&text[..end]), &text[next..])
}

/// The line that begins at a place of a text: where it ends, and where the next one begins; none where the text ends there. Takes no memory.
pub fn line_at(text: &[u8], at: usize) -> Option<(usize, usize)>
    ensures { MatchOption result (length text.now ≤ at) (λ line. IsLineAt text.now at line.0 line.1) }
{
    if at >= text.len() {
        return None;
    }
    let (end, next) = cut_line(&text[at..]);
    Some((at + end, at + next))
}

// The first line of a text that has one: where it ends, and where the next one begins.
fn cut_line(text: &[u8]) -> (usize, usize)
    requires { 0 < length text.now }
    ensures lines { cut_lines text.now ≡ take result.0 text.now ∷ cut_lines (drop result.1 text.now) }
    ensures order { result.0 ≤ result.1 }
    ensures within { result.1 ≤ length text.now }
    ensures longer { 0 < result.1 }
{
    for end in 0..text.len() {
        let rest = &text[end..];
        if is_at_end(rest) {
            return (end, end + width_of_end(rest));
        }
    }
    (text.len(), text.len())
}

// A line less the spaces at its end.
fn trim_end(line: &[u8]) -> &[u8]
    ensures { result.now ≡ trimmed line.now }
{
    let mut end = line.len();
    while end > 0 {
        if line[end - 1] != b' ' {
            return &line[..end];
        }
        end -= 1;
    }
    &[]
}

// Whether a line ends at the start of a text.
fn is_at_end(text: &[u8]) -> bool
    ensures { result ≡ is_at_end text.now }
{
    matches!(text, [] | [b'\n', ..] | [b'\r', b'\n', ..])
}

// How many bytes end a line at the start of a text that is not empty.
fn width_of_end(text: &[u8]) -> usize
    requires ends { is_at_end text.now ≡ true }
    requires there { 0 < length text.now }
    ensures rest { drop result text.now ≡ after_end text.now }
    ensures within { result ≤ length text.now }
    ensures some { 0 < result }
{
    match text {
        [b'\r', b'\n', ..] => 2,
        _ => 1,
    }
}
