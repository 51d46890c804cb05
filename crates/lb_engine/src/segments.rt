//! Lines of the main file (source2e, file ltfiles).
ghost use Rattle.std.specs.Prelude.{◌≡◌, ◌≤◌, length};
ghost use Rattle.lb_model.specs.Tokens.{cut_lines};
ghost use Rattle.lb_engine.specs.Segments.{width_of_lines};

use lb_tokens::Lines;

// How many bytes so many lines of a text take from a place on.
pub(crate) fn width_of_lines(text: &[u8], lines: u64) -> usize
    ensures width { result ≡ width_of_lines lines text.now }
    ensures within { result ≤ length text.now }
{
    let mut left = lines;
    for at in 0..text.len() {
        if left == 0 {
            return at;
        }
        if text[at] == b'\n' {
            left -= 1;
        }
    }
    text.len()
}

// How many lines a text has.
pub(crate) fn count_lines(text: &[u8]) -> u64
    ensures { result ≡ length (cut_lines text.now) }
{
    let mut lines = Lines::of(text);
    let mut count = 0;
    'lines: for _line in 0..text.len() {
        if lines.next_line().is_none() {
            return count;
        }
        count += 1;
    }
    count
}
