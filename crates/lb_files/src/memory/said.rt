//! Printers in memory.
ghost use Rattle.std.specs.Prelude.{◌≡◌, ◌≤◌, ◌<◌, ◌-◌, ◌+◌, [], ◌∷◌, ◌++◌, length, IfOk, IsErr, List, ℕ, OnOk, OnErr, IsOk, IfSome, Some, vec_len, vec_capacity};
ghost use Rattle.lb_model.specs.Causes.{HasCause};
ghost use Rattle.lb_model.specs.Journal.{Prints, PrintsPrefix};

use super::calls::Calls;
use crate::outside::{Failed, Said};
use lb_base::{NoMemory, NumberList};
use std::alloc::{AllocError, Global};
use std::marker::Model;

/// A printer that keeps what is said and fails at the calls that it is told to fail at.
#[derive(Drop)]
pub struct MemSaid {
    text: Vec<u8>,
    calls: Calls,
}

impl Model for MemSaid {
    ghost use Rattle.lb_files.specs.Forms.{SaidForm};

    ghost Value = { SaidForm };

    ghost view = { λ said. record { bytes = said.text.items; faults = said.calls.faults } };
}

impl MemSaid {
    /// `failing` has the numbers, from 0, of the calls that fail.
    pub fn new(alloc: Global, failing: NumberList) -> Result<MemSaid, NoMemory>
        ensures bytes { IfOk result (λ said. said.bytes ≡ []) }
        ensures faults { IfOk result (λ said. said.faults ≡ 0) }
    {
        Ok(MemSaid {
            text: Vec::new(alloc),
            calls: Calls::new(failing),
        })
    }

    /// What was said.
    pub fn text(&self) -> &[u8]
        ensures { result.now ≡ self.now.bytes }
    {
        &self.text
    }

    pub fn faults(&self) -> u64
        ensures { result ≡ self.now.faults }
    {
        self.calls.faults
    }

    fn fail(&mut self) -> Result<(), Failed>
        ensures bytes { self.new.bytes ≡ self.old.bytes }
        ensures cause { HasCause self.old.faults self.new.faults result }
        ensures err { IsErr result }
    {
        self.calls.count_fault();
        Err(Failed)
    }
}

impl Said for MemSaid {
    ghost bytes = { λ said. Some said.bytes };

    ghost faults = { λ said. said.faults };

    fn say(&mut self, line: &[u8]) -> Result<(), Failed> {
        if self.calls.is_to_fail() {
            return self.fail();
        }
        match push_line(&mut self.text, line) {
            Ok(()) => Ok(()),
            Err(_) => self.fail(),
        }
    }
}

/// A printer that never fails and takes no memory once it is made. A line that finds no room is
/// dropped with all after it, and from then on the printer does not tell what was said.
#[derive(Drop)]
pub struct SureSaid {
    text: Vec<u8>,
    is_whole: bool,
}

impl Model for SureSaid {
    ghost use Rattle.std.specs.Prelude.{◌-◌, Some, None, if◌then◌else◌, vec_len, vec_capacity};
    ghost use Rattle.lb_files.specs.Forms.{SureSaidForm};

    ghost Value = { SureSaidForm };

    ghost view = { λ said. record { bytes = (if said.is_whole then Some said.text.items else None); room = vec_capacity said.text - vec_len said.text } };
}

impl SureSaid {
    /// Room for `n` bytes, a line's line feed counted with it.
    pub fn with_room(alloc: Global, n: usize) -> Result<SureSaid, NoMemory>
        ensures bytes { IfOk result (λ said. said.bytes ≡ Some []) }
        ensures room { IfOk result (λ said. n ≤ said.room) }
    {
        Ok(SureSaid {
            text: Vec::with_capacity(alloc, n)?,
            is_whole: true,
        })
    }

    /// What was said before the first line that found no room.
    pub fn text(&self) -> &[u8]
        ensures { IfSome self.now.bytes (λ bytes. result.now ≡ bytes) }
    {
        &self.text
    }
}

impl Said for SureSaid {
    ghost bytes = { λ said. said.bytes };

    ghost faults = { λ said. 0 };

    fn say(&mut self, line: &[u8]) -> Result<(), Failed>
        ensures said { OnOk result (Prints self.old.bytes self.new.bytes (line.now ++ 10 ∷ [])) }
        ensures err { OnErr result (PrintsPrefix self.old.bytes self.new.bytes (line.now ++ 10 ∷ [])) }
        ensures cause { HasCause 0 0 result }
        ensures sure { IsOk result }
        ensures fits { length line.now < self.old.room → IfSome self.old.bytes (λ bytes. self.new.bytes ≡ Some (bytes ++ (line.now ++ 10 ∷ []))) }
        ensures room { length line.now < self.old.room → IfSome self.old.bytes (λ bytes. self.old.room ≤ self.new.room + (length line.now + 1)) }
    {
        if !self.is_whole || self.text.capacity() - self.text.len() <= line.len() {
            self.is_whole = false;
            return Ok(());
        }
        self.is_whole = push_line(&mut self.text, line).is_ok();
        Ok(())
    }
}

fn push_line(text: &mut Vec<u8>, line: &[u8]) -> Result<(), AllocError>
    ensures ok { OnOk result (text.new.items ≡ text.old.items ++ (line.now ++ 10 ∷ [])) }
    ensures err { OnErr result ((part : List ℕ) × ((rest : List ℕ) × (line.now ++ 10 ∷ [] ≡ part ++ rest)) × (text.new.items ≡ text.old.items ++ part)) }
    ensures capacity { vec_capacity text.old ≤ vec_capacity text.new }
    ensures fits { vec_len text.old + (length line.now + 1) ≤ vec_capacity text.old → IsOk result }
{
    text.extend_from_slice(line)?;
    text.push(b'\n')?;
    Ok(())
}
