//! What the nest adds to the journal, written as text.
ghost use Rattle.std.specs.Prelude.{◌≡◌, IfOk, OnOk};
ghost use Rattle.lb_model_nest.specs.Pages.{note_line};
ghost use Rattle.lb_nest.specs.Appends.{append_of};
ghost use Rattle.lb_engine.specs.Views.{IsReady, IsWritten};

use crate::engine::Engine;
use lb_aux::{contents_line, label_line, log_line};
use lb_base::{Bytes, NoMemory, Note};
use lb_model::Append;
use lb_model_journal::Entry3;
use lb_nest::{Entry, mode};
use lb_print::printed;
use lb_values::LabelPair;
use std::alloc::{AllocError, Global};

// The line of a note on a page whose number is shown so.
fn note_line(alloc: Global, number: &Bytes, note: Note) -> Result<Bytes, NoMemory>
    ensures { IfOk result (λ line. line ≡ note_line number.now note) }
{
    match note {
        Note::Label { key, text } => {
            let page = number.clone()?;
            label_line(alloc, &key, &LabelPair { text, page })
        }
        Note::Contents {
            extension,
            kind,
            title,
        } => {
            let page = printed(alloc, number.as_slice())?;
            contents_line(alloc, &extension, &Entry3 { kind, title, page })
        }
    }
}

// What is written for an entry.
fn append_of(alloc: Global, entry: Entry) -> Result<Append, NoMemory>
    ensures { IfOk result (λ append. append ≡ append_of entry) }
{
    match entry {
        Entry::Page(code) => Ok(Append::Page(code)),
        Entry::Note { number, note } => {
            let line = note_line(alloc, number.get(), note)?;
            Ok(Append::Aux(line))
        }
        Entry::Event(event) => {
            let line = log_line(alloc, &event)?;
            Ok(Append::Log(line))
        }
    }
}

/// Writes what the nest has added to the journal. After want of memory a part is lost.
pub fn write_entries(engine: &mut Engine) -> Result<(), NoMemory>
    ensures { OnOk result (IsWritten engine.new engine.old) }
{
    'entries: for _turn in 0..u64::MAX {
        let Some(entry) = engine.nest.entries.pop() else {
            return Ok(());
        };
        let append = append_of(engine.desk.alloc, entry)?;
        engine.desk.appends.push(append)?;
    }
    Err(AllocError)
}

/// Makes the desk ready for what is read next: what the nest has added to the journal is written, and the mode is that of the innermost
/// list.
#[inline(always)]
pub fn make_ready(engine: &mut Engine) -> Result<(), NoMemory>
    ensures { OnOk result (IsReady engine.new engine.old) }
{
    engine.desk.mode = mode(engine.nest.level.kind);
    if engine.nest.entries.is_empty() {
        return Ok(());
    }
    write_entries(engine)
}
