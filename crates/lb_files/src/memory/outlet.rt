//! Outlets in memory.
ghost use Rattle.std.specs.Prelude.{◌≡◌, [], ◌∷◌, ◌++◌, length, IfOk, IsErr, OnOk, OnErr, Some, nat_eq, List};
ghost use Rattle.std.specs.List.{position};
ghost use Rattle.std.specs.Option.{option_copied};
ghost use lib.Pointwise.{pointwise};
ghost use Rattle.lb_model.specs.Causes.{HasCause};
ghost use Rattle.lb_model.specs.Journal.{Entry, Begun, appended, content_of, begun_names};
ghost use Rattle.lb_files.specs.Texts.{Keeps};

use super::calls::Calls;
use crate::outside::{Failed, Outlet};
use lb_base::{Bytes, Name, NameList, NoMemory, NumberList};
use std::alloc::{AllocError, Global};
use std::marker::Model;

/// What was done to an outlet.
#[derive(Drop)]
enum Event {
    Begun(Name),
    Put(Name, Bytes),
}

/// An outlet that keeps its files and its journal, and fails at the calls that it is told to fail at.
#[derive(Drop)]
pub struct MemOutlet {
    alloc: Global,
    events: Vec<Event>,
    // the files in the order of their first begin, and what each of them has
    names: NameList,
    texts: Vec<Bytes>,
    calls: Calls,
}

impl Model for MemOutlet {
    ghost use Rattle.lb_files.specs.Forms.{OutletForm};

    ghost Value = { OutletForm };

    ghost use Rattle.lb_files.specs.Events.{journal_of};
    ghost use Rattle.lb_files.specs.Texts.{Keeps};

    ghost view = { λ outlet. record { journal = journal_of outlet.events.items; faults = outlet.calls.faults } };

    ghost invariant = { λ outlet. Keeps (journal_of outlet.events.items) outlet.names outlet.texts.items };
}

impl MemOutlet {
    /// `failing` has the numbers, from 0, of the calls that fail.
    pub fn new(alloc: Global, failing: NumberList) -> Result<MemOutlet, NoMemory>
        ensures journal { IfOk result (λ outlet. outlet.journal ≡ []) }
        ensures faults { IfOk result (λ outlet. outlet.faults ≡ 0) }
    {
        Ok(MemOutlet {
            alloc,
            events: Vec::new(alloc),
            names: NameList::new(alloc),
            texts: Vec::new(alloc),
            calls: Calls::new(failing),
        })
    }

    /// What a file has since its last begin. Takes no memory.
    pub fn file(&self, name: &Name) -> Option<&[u8]>
        ensures { option_copied result ≡ content_of name.now self.now.journal }
    {
        match place_of(&self.names, name) {
            Some(at) => Some(self.texts[at].as_slice()),
            None => None,
        }
    }

    /// The files that were begun, in the order of their first begin. Takes no memory.
    pub fn begun(&self) -> &NameList
        ensures { result.now ≡ begun_names self.now.journal }
    {
        &self.names
    }

    pub fn faults(&self) -> u64
        ensures { result ≡ self.now.faults }
    {
        self.calls.faults
    }

    fn fail(&mut self) -> Result<(), Failed>
        ensures journal { self.new.journal ≡ self.old.journal }
        ensures cause { HasCause self.old.faults self.new.faults result }
        ensures err { IsErr result }
    {
        self.calls.count_fault();
        Err(Failed)
    }

    fn begin_file(&mut self, file: &Name) -> Result<(), AllocError>
        ensures ok { OnOk result (self.new.journal ≡ self.old.journal ++ Begun file.now ∷ []) }
        ensures err { OnErr result (self.new.journal ≡ self.old.journal) }
        ensures faults { self.new.faults ≡ self.old.faults }
    {
        self.events.reserve(1)?;
        let event = Event::Begun(file.clone()?);
        begin_text(self.alloc, &mut self.names, &mut self.texts, file)?;
        self.events.push_reserved(event);
        Ok(())
    }

    fn put_bytes(&mut self, file: &Name, bytes: &[u8]) -> Result<(), AllocError>
        ensures ok { OnOk result (self.new.journal ≡ self.old.journal ++ appended file.now bytes.now) }
        ensures err { OnErr result (self.new.journal ≡ self.old.journal) }
        ensures faults { self.new.faults ≡ self.old.faults }
    {
        self.events.reserve(1)?;
        let event = Event::Put(file.clone()?, Bytes::from_slice(self.alloc, bytes)?);
        put_behind(&self.names, &mut self.texts, file, bytes)?;
        self.events.push_reserved(event);
        Ok(())
    }
}

impl Outlet for MemOutlet {
    ghost journal = { λ outlet. Some outlet.journal };

    ghost faults = { λ outlet. outlet.faults };

    fn begin(&mut self, file: &Name) -> Result<(), Failed> {
        if self.calls.is_to_fail() {
            return self.fail();
        }
        match self.begin_file(file) {
            Ok(()) => Ok(()),
            Err(_) => self.fail(),
        }
    }

    fn append(&mut self, file: &Name, bytes: &[u8]) -> Result<(), Failed> {
        if self.calls.is_to_fail() {
            return self.fail();
        }
        match self.put_bytes(file, bytes) {
            Ok(()) => Ok(()),
            Err(_) => self.fail(),
        }
    }
}

pub(super) fn place_of(names: &NameList, file: &Name) -> Option<usize>
    ensures { result ≡ position (pointwise nat_eq file.now) names.now }
{
    names.as_slice().iter().position(|name| file == name)
}

// Empties the text of a file, or adds an empty one for a file that is new.
fn begin_text(
    alloc: Global,
    names: &mut NameList,
    texts: &mut Vec<Bytes>,
    file: &Name,
) -> Result<(), AllocError>
    requires { length names.old ≡ length texts.old.items }
    ensures keeps { OnOk result ((journal : List Entry) → Keeps journal names.old texts.old.items → Keeps (journal ++ Begun file.now ∷ []) names.new texts.new.items) }
    ensures names_err { OnErr result (names.new ≡ names.old) }
    ensures texts_err { OnErr result (texts.new.items ≡ texts.old.items) }
{
    match place_of(names, file) {
        Some(at) => {
            texts[at] = Bytes::new(alloc);
            Ok(())
        }
        None => add_file(alloc, names, texts, file),
    }
}

fn add_file(
    alloc: Global,
    names: &mut NameList,
    texts: &mut Vec<Bytes>,
    file: &Name,
) -> Result<(), AllocError>
    ensures names { OnOk result (names.new ≡ names.old ++ file.now ∷ []) }
    ensures texts { OnOk result (texts.new.items ≡ texts.old.items ++ [] ∷ []) }
    ensures names_err { OnErr result (names.new ≡ names.old) }
    ensures texts_err { OnErr result (texts.new.items ≡ texts.old.items) }
{
    texts.reserve(1)?;
    names.push(file.clone()?)?;
    texts.push_reserved(Bytes::new(alloc));
    Ok(())
}

// A file that was never begun has no text.
fn put_behind(
    names: &NameList,
    texts: &mut Vec<Bytes>,
    file: &Name,
    bytes: &[u8],
) -> Result<(), AllocError>
    requires { length names.now ≡ length texts.old.items }
    ensures keeps { OnOk result ((journal : List Entry) → Keeps journal names.now texts.old.items → Keeps (journal ++ appended file.now bytes.now) names.now texts.new.items) }
    ensures err { OnErr result (texts.new.items ≡ texts.old.items) }
{
    match place_of(names, file) {
        Some(at) => texts[at].extend_from_slice(bytes),
        None => Ok(()),
    }
}
