//! The lines of labels and of entries of contents.
ghost use Rattle.std.specs.Prelude.{◌≡◌, ◌++◌, IfOk, OnOk};
ghost use Rattle.lb_model_journal.specs.Written.{braced, contents_entry, contents_line, label_line, written};

use crate::tokens::push_written;
use lb_base::{Bytes, Name, NoMemory, Tok};
use lb_model_journal::Entry3;
use lb_values::LabelPair;
use std::alloc::Global;

/// Writes a group behind a text.
pub fn push_group(inner: &[u8], text: &mut Bytes) -> Result<(), NoMemory>
    ensures { OnOk result (text.new ≡ text.old ++ braced inner.now) }
{
    text.push(b'{')?;
    text.extend_from_slice(inner)?;
    text.push(b'}')
}

// Writes a group of tokens behind a text.
fn push_token_group(toks: &[Tok], text: &mut Bytes) -> Result<(), NoMemory>
    ensures { OnOk result (text.new ≡ text.old ++ braced (written toks.now)) }
{
    text.push(b'{')?;
    push_written(toks, text)?;
    text.push(b'}')
}

/// The line of a label: its key, its text and its page.
pub fn label_line(alloc: Global, key: &Name, pair: &LabelPair) -> Result<Bytes, NoMemory>
    ensures { IfOk result (λ text. text ≡ label_line key.now pair.now) }
{
    let mut text = Bytes::from_slice(alloc, b"\\newlabel")?;
    push_group(key.as_slice(), &mut text)?;
    text.push(b'{')?;
    push_group(pair.text.as_slice(), &mut text)?;
    push_group(pair.page.as_slice(), &mut text)?;
    text.extend_from_slice(b"}\n")?;
    Ok(text)
}

// Writes a group of an entry.
fn push_entry(entry: &Entry3, text: &mut Bytes) -> Result<(), NoMemory>
    ensures { OnOk result (text.new ≡ text.old ++ braced (contents_entry entry.now)) }
{
    text.extend_from_slice(b"{\\contentsline ")?;
    push_group(entry.kind.as_slice(), text)?;
    push_token_group(entry.title.as_slice(), text)?;
    push_token_group(entry.page.as_slice(), text)?;
    text.push(b'}')?;
    Ok(())
}

/// The line of an entry of contents, for the file of an ending, as `toc`: its kind, its title and its page. Title and page are written as tokens.
pub fn contents_line(alloc: Global, ext: &Name, entry: &Entry3) -> Result<Bytes, NoMemory>
    ensures { IfOk result (λ text. text ≡ contents_line ext.now entry.now) }
{
    let mut text = Bytes::from_slice(alloc, b"\\@writefile")?;
    push_group(ext.as_slice(), &mut text)?;
    push_entry(entry, &mut text)?;
    text.push(b'\n')?;
    Ok(text)
}
