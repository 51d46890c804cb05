//! What is added to the journal and not written yet.
ghost use Rattle.std.specs.Prelude.{◌≡◌, ◌∷◌, ◌++◌, [], MatchOption, OnOk, OnErr};
ghost use Rattle.lb_nest.specs.Appends.{append_of, is_without_appends};

use lb_base::{Bytes, NoMemory, Note, PageCode};
use lb_model_journal::Event;
use lb_values::Shared;
use std::alloc::Global;
use std::collections::VecDeque;
use std::marker::Model;

/// An entry of the journal.
#[derive(Drop)]
pub enum Entry {
    /// A page.
    Page(PageCode),
    /// What a page tells an aux file: a note, with the page's number as it is shown.
    Note { number: Shared<Bytes>, note: Note },
    /// An event, for the log.
    Event(Event),
}

/// Entries in order, which contracts see as what is written for them.
#[derive(Drop)]
pub struct EntryList {
    entries: VecDeque<Entry>,
}

impl Model for EntryList {
    ghost use Rattle.std.specs.Prelude.{List, map};
    ghost use Rattle.lb_model.specs.declared.append.Append.{Append};
    ghost use Rattle.lb_nest.specs.Appends.{append_of};

    ghost Value = { List Append };

    ghost view = { λ list. map append_of list.entries.items };
}

impl EntryList {
    /// No entries. Takes no memory.
    pub fn new(alloc: Global) -> EntryList
        ensures { result ≡ [] }
    {
        EntryList {
            entries: VecDeque::new(alloc),
        }
    }

    /// Whether there are none.
    pub fn is_empty(&self) -> bool
        ensures { result ≡ is_without_appends self.now }
    {
        self.entries.is_empty()
    }

    /// Puts an entry behind the others.
    pub fn push(&mut self, entry: Entry) -> Result<(), NoMemory>
        ensures ok { OnOk result (self.new ≡ self.old ++ append_of entry ∷ []) }
        ensures err { OnErr result (self.new ≡ self.old) }
    {
        self.entries.push_back(entry)?;
        Ok(())
    }

    /// Takes the first entry.
    pub fn pop(&mut self) -> Option<Entry>
        ensures { MatchOption result ((self.old ≡ []) × (self.new ≡ [])) (λ entry. self.old ≡ append_of entry ∷ self.new) }
    {
        self.entries.pop_front()
    }
}
