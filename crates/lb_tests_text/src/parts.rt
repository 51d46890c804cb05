//! The parts of a command, which stand between semicolons.
ghost use Rattle.std.specs.Prelude.{◌≤◌, length};

/// Where the part that begins at a place ends: at the next semicolon, or with the words.
pub fn part_end(words: &[&str], from: usize) -> usize
    requires { from ≤ length words.now }
    ensures within { result ≤ length words.now }
    ensures behind { from ≤ result }
{
    let mut end = from;
    while end < words.len() && words[end] != ";" {
        end += 1;
    }
    end
}

/// Where the part behind one begins that ends at a place.
pub fn behind(words: &[&str], end: usize) -> usize
    requires { end ≤ length words.now }
    ensures { result ≤ length words.now }
{
    if end < words.len() { end + 1 } else { end }
}
