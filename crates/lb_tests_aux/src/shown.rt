//! Bytes as they are shown: hexadecimal digits behind a dot.
use crate::stop::Stop;
use std::fmt::Write;

pub(crate) fn show_bytes(bytes: &[u8], out: &mut String) -> Result<(), Stop> {
    out.push('.')?;
    for byte in bytes {
        write!(out, "{byte:02x}")?;
    }
    Ok(())
}

/// The same behind a word and a space.
pub(crate) fn show_part(word: &str, bytes: &[u8], out: &mut String) -> Result<(), Stop> {
    out.push_str(word)?;
    out.push(' ')?;
    show_bytes(bytes, out)
}

/// What is shown of a step that tells nothing.
pub(crate) fn show_done(out: &mut String) -> Result<(), Stop> {
    out.push_str("ok")?;
    Ok(())
}
