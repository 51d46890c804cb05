//! Lines that hold one command and nothing else.
ghost use Rattle.std.specs.Prelude.{◌≡◌};
ghost use Rattle.std.specs.Option.{option_copied};
ghost use Rattle.lb_model_book.specs.OwnLines.{after_blanks, is_blank, is_bare, is_own_line, is_name_byte, name_at, name_in_braces, included_name};

/// Whether a line is a word between blanks, with a comment behind it or none.
pub fn is_own_line(word: &[u8], line: &[u8]) -> bool
    ensures { result ≡ is_own_line word.now line.now }
{
    let text = skip_blanks(line);
    text.starts_with(word) && is_bare(&text[word.len()..])
}

/// The chapter's name where a line includes a chapter and does nothing else.
pub fn included_name(line: &[u8]) -> Option<&[u8]>
    ensures { option_copied result ≡ included_name line.now }
{
    let text = skip_blanks(line);
    if !text.starts_with(b"\\include{") {
        return None;
    }
    name_in_braces(&text[9..])
}

// The name before a closing brace behind which nothing follows.
fn name_in_braces(text: &[u8]) -> Option<&[u8]>
    ensures { option_copied result ≡ name_in_braces text.now }
{
    let name = name_at(text);
    if name.is_empty() {
        return None;
    }
    match &text[name.len()..] {
        [b'}', rest @ ..] if is_bare(rest) => Some(name),
        _ => None,
    }
}

// The longest chapter's name at the front of a text.
fn name_at(text: &[u8]) -> &[u8]
    ensures { result.now ≡ name_at text.now }
{
    for (end, byte) in text.iter().enumerate() {
        if !is_name_byte(*byte) {
            return &text[..end];
        }
    }
    text
}

// Whether a byte may stand in a chapter's name.
fn is_name_byte(byte: u8) -> bool
    ensures { result ≡ is_name_byte byte }
{
    byte.is_ascii_graphic() && !matches!(byte, b'\\' | b'{' | b'}' | b'%' | b'#' | b'~' | b'^')
}

// Whether nothing but blanks and a comment is left of a line.
fn is_bare(text: &[u8]) -> bool
    ensures { result ≡ is_bare text.now }
{
    matches!(skip_blanks(text), [] | [b'%', ..])
}

// A line from its first byte that is no blank.
fn skip_blanks(line: &[u8]) -> &[u8]
    ensures { result.now ≡ after_blanks line.now }
{
    for (start, byte) in line.iter().enumerate() {
        if !is_blank(*byte) {
            return &line[start..];
        }
    }
    &[]
}

// Whether a byte is a space or a tab.
fn is_blank(byte: u8) -> bool
    ensures { result ≡ is_blank byte }
{
    byte == b' ' || byte == b'\t'
}
