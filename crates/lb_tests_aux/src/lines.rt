//! Lines of labels and contents.
use crate::shown::show_bytes;
use crate::stop::Stop;
use crate::tokens::tokens;
use crate::words::{bytes, name};
use lb_aux::{contents_line, label_line};
use lb_model_journal::Entry3;
use lb_values::LabelPair;
use std::alloc::Global;

/// `label KEY TEXT PAGE`.
pub(crate) fn show_label(alloc: Global, words: &[&str], out: &mut String) -> Result<(), Stop> {
    let [key, text, page] = *words else {
        return Err(Stop::Command);
    };
    let pair = LabelPair {
        text: bytes(alloc, text)?,
        page: bytes(alloc, page)?,
    };
    let key = name(alloc, key)?;
    let line = label_line(alloc, &key, &pair)?;
    show_bytes(line.as_slice(), out)
}

/// `contents ENDING KIND TITLE PAGE`.
pub(crate) fn show_contents(alloc: Global, words: &[&str], out: &mut String) -> Result<(), Stop> {
    let [ending, kind, title, page] = *words else {
        return Err(Stop::Command);
    };
    let entry = Entry3 {
        kind: name(alloc, kind)?,
        title: tokens(alloc, title)?,
        page: tokens(alloc, page)?,
    };
    let ending = name(alloc, ending)?;
    let line = contents_line(alloc, &ending, &entry)?;
    show_bytes(line.as_slice(), out)
}
