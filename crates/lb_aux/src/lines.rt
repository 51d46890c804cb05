//! The lines of a text.
ghost use Rattle.std.specs.Prelude.{◌≡◌, ◌∷◌, ◌<◌, length};
ghost use Rattle.std.specs.List.{position_or_len};
ghost use Rattle.lb_model_aux.specs.Forms.{without_ending};
ghost use Rattle.lb_model_aux.specs.Reading.{lines_of};
ghost use Rattle.lb_aux.specs.Parts.{is_feed};

/// A text less an ending, where it has it.
pub fn without_ending<'a>(ending: &[u8], text: &'a [u8]) -> &'a [u8]
    ensures { result.now ≡ without_ending ending.now text.now }
{
    if text.ends_with(ending) {
        &text[..text.len() - ending.len()]
    } else {
        text
    }
}

// The place of the first line feed of a text, or its length where it has none.
fn feed_at(text: &[u8]) -> usize
    ensures { result ≡ position_or_len is_feed text.now }
{
    for (end, byte) in text.iter().enumerate() {
        if *byte == b'\n' {
            return end;
        }
    }
    text.len()
}

/// The first line of a text that has one, without the line feed and a carriage return at its end, and the text behind it.
pub fn split_line(text: &[u8]) -> (&[u8], &[u8])
    requires { 0 < length text.now }
    ensures lines { lines_of text.now ≡ result.0.now ∷ lines_of result.1.now }
    ensures shorter { length result.1.now < length text.now }
{
    let end = feed_at(text);
    let line = without_ending(b"\r", &text[..end]);
    if end < text.len() {
        (line, &text[end + 1..])
    } else {
        (line, &[])
    }
}
