//! An outlet in memory that never fails.
ghost use Rattle.std.specs.Prelude.{◌≡◌, ◌+◌, ◌≤◌, ◌<◌, true, [], ◌∷◌, ◌++◌, length, IfOk, IfSome, IsSome, IsOk, OnOk, OnErr, None, Some, map, vec_len, vec_capacity};
ghost use Rattle.std.specs.Option.{option_copied};
ghost use Rattle.lb_model.specs.Causes.{HasCause};
ghost use Rattle.lb_model.specs.Journal.{Begun, Adds, AddsPrefix, appended, content_of, begun_names};
ghost use Rattle.lb_files.specs.declared.memory.sure_outlet.Step.TheVariants.{Byte, Stray};

use super::pool::Pool;
use crate::outside::{Failed, Outlet};
use lb_base::{Name, NameList, NoMemory};
use std::alloc::{AllocError, Global};
use std::marker::Model;

/// What was done, the file being the place of its name.
#[derive(Drop)]
enum Step {
    Begun(usize),
    Byte(usize, u8),
    // a byte for a file that was never begun, and so has no place
    Stray(Name, u8),
}

/// An outlet that never fails and takes no memory once it is made. A call whose entries find no room
/// is dropped with all after it, and from then on the outlet does not tell what was done.
#[derive(Drop)]
pub struct SureOutlet {
    steps: Vec<Step>,
    // the files in the order of their first begin, and what each of them has
    names: Pool,
    texts: Pool,
    // the same names, to be lent: a name may have too many owners for one more
    listed: NameList,
    is_listed: bool,
    room: usize,
    is_whole: bool,
}

impl Model for SureOutlet {
    ghost use Rattle.std.specs.Prelude.{◌≡◌, ◌≤◌, ◌+◌, Some, None, true, map, if◌then◌else◌, vec_len, vec_capacity};
    ghost use Rattle.lb_files.specs.Forms.{SureOutletForm};

    ghost Value = { SureOutletForm };

    ghost use Rattle.lb_files.specs.Steps.{entry_of, KeepsSteps};

    ghost view = { λ outlet. record { journal = (if outlet.is_whole then Some (map (entry_of outlet.names.texts) outlet.steps.items) else None); room = outlet.room; is_listed = outlet.is_listed } };

    ghost invariant = { λ outlet. (outlet.is_whole ≡ true → KeepsSteps outlet.steps.items outlet.names.texts outlet.texts.texts) × (outlet.is_listed ≡ true → outlet.listed ≡ outlet.names.texts) × (vec_len outlet.steps + outlet.room ≤ vec_capacity outlet.steps) × (outlet.room ≤ outlet.names.room) × (outlet.room ≤ outlet.names.places) × (outlet.room ≤ outlet.texts.room) × (outlet.room ≤ outlet.texts.places) };
}

impl SureOutlet {
    /// Room for `n` entries: a begin takes one and one for each byte of the file's name, an append
    /// one for each of its bytes.
    pub fn with_room(alloc: Global, n: usize) -> Result<SureOutlet, NoMemory>
        ensures journal { IfOk result (λ outlet. outlet.journal ≡ Some []) }
        ensures room { IfOk result (λ outlet. outlet.room ≡ n) }
        ensures listed { IfOk result (λ outlet. outlet.is_listed ≡ true) }
    {
        Ok(SureOutlet {
            steps: Vec::with_capacity(alloc, n)?,
            names: Pool::with_capacity(alloc, n)?,
            texts: Pool::with_capacity(alloc, n)?,
            listed: NameList::from_vec(Vec::with_capacity(alloc, n)?),
            is_listed: true,
            room: n,
            is_whole: true,
        })
    }

    /// What a file has since its last begin, and None of every file once a call was dropped. Takes no
    /// memory.
    pub fn file(&self, name: &Name) -> Option<&[u8]>
        ensures { IfSome self.now.journal (λ journal. option_copied result ≡ content_of name.now journal) }
    {
        if !self.is_whole {
            return None;
        }
        match self.names.position(name.as_slice()) {
            Some(at) => Some(self.texts.text(at)),
            None => None,
        }
    }

    /// The files that were begun, in the order of their first begin. Takes no memory.
    pub fn begun(&self) -> &NameList
        ensures { self.now.is_listed ≡ true → IfSome self.now.journal (λ journal. result.now ≡ begun_names journal) }
    {
        &self.listed
    }

    /// Whether `begun` lends all of them: a file is left out whose name had too many owners.
    pub fn is_listed(&self) -> bool
        ensures { result ≡ self.now.is_listed }
    {
        self.is_listed
    }

    // Begins a file where there is room for it.
    fn begin_file(&mut self, file: &Name)
        requires told { IsSome self.old.journal }
        requires fits { length file.now < self.old.room }
        ensures adds { Adds self.old.journal self.new.journal (Begun file.now ∷ []) }
        ensures fits { IfSome self.old.journal (λ journal. self.new.journal ≡ Some (journal ++ Begun file.now ∷ [])) }
        ensures room { self.new.room + (length file.now + 1) ≡ self.old.room }
    {
        self.room = self.room - file.len() - 1;
        match self.names.position(file.as_slice()) {
            Some(at) => {
                self.texts.empty(at);
                self.steps.push_reserved(Step::Begun(at));
            }
            None => {
                self.is_listed = is_list_on(self.is_listed, &mut self.listed, file);
                self.texts.add(b"");
                let at = self.names.add(file.as_slice());
                self.steps.push_reserved(Step::Begun(at));
            }
        }
    }

    // Puts bytes behind a file where there is room for them.
    fn put_bytes(&mut self, file: &Name, bytes: &[u8])
        requires told { IsSome self.old.journal }
        requires fits { length bytes.now ≤ self.old.room }
        ensures adds { Adds self.old.journal self.new.journal (appended file.now bytes.now) }
        ensures fits { IfSome self.old.journal (λ journal. IsSome (content_of file.now journal) → self.new.journal ≡ Some (journal ++ appended file.now bytes.now)) }
        ensures room { self.new.room + length bytes.now ≡ self.old.room }
        ensures listed { self.new.is_listed ≡ self.old.is_listed }
    {
        self.room -= bytes.len();
        match self.names.position(file.as_slice()) {
            Some(at) => {
                self.texts.extend(at, bytes);
                push_bytes(&mut self.steps, at, bytes);
            }
            None => self.is_whole = push_strays(&mut self.steps, file, bytes).is_ok(),
        }
    }
}

impl Outlet for SureOutlet {
    ghost journal = { λ outlet. outlet.journal };

    ghost faults = { λ outlet. 0 };

    fn begin(&mut self, file: &Name) -> Result<(), Failed>
        ensures begun { OnOk result (Adds self.old.journal self.new.journal (Begun file.now ∷ [])) }
        ensures err { OnErr result (AddsPrefix self.old.journal self.new.journal (Begun file.now ∷ [])) }
        ensures cause { HasCause 0 0 result }
        ensures sure { IsOk result }
        ensures fits { length file.now < self.old.room → IfSome self.old.journal (λ journal. self.new.journal ≡ Some (journal ++ Begun file.now ∷ [])) }
        ensures room { length file.now < self.old.room → IfSome self.old.journal (λ journal. self.new.room + (length file.now + 1) ≡ self.old.room) }
        ensures dropped { self.old.room ≤ length file.now → self.new.journal ≡ None }
    {
        if !self.is_whole || self.room <= file.len() {
            self.is_whole = false;
            return Ok(());
        }
        self.begin_file(file);
        Ok(())
    }

    fn append(&mut self, file: &Name, bytes: &[u8]) -> Result<(), Failed>
        ensures appended { OnOk result (Adds self.old.journal self.new.journal (appended file.now bytes.now)) }
        ensures err { OnErr result (AddsPrefix self.old.journal self.new.journal (appended file.now bytes.now)) }
        ensures cause { HasCause 0 0 result }
        ensures sure { IsOk result }
        ensures fits { length bytes.now ≤ self.old.room → IfSome self.old.journal (λ journal. IsSome (content_of file.now journal) → self.new.journal ≡ Some (journal ++ appended file.now bytes.now)) }
        ensures room { length bytes.now ≤ self.old.room → IfSome self.old.journal (λ journal. self.new.room + length bytes.now ≡ self.old.room) }
        ensures dropped { self.old.room < length bytes.now → self.new.journal ≡ None }
        ensures listed { self.new.is_listed ≡ self.old.is_listed }
    {
        if !self.is_whole || self.room < bytes.len() {
            self.is_whole = false;
            return Ok(());
        }
        self.put_bytes(file, bytes);
        Ok(())
    }
}

// Adds the name, where all before it were added too, and answers whether it did.
fn is_list_on(is_listed: bool, listed: &mut NameList, file: &Name) -> bool
    ensures { result ≡ true → (is_listed ≡ true) × (listed.new ≡ listed.old ++ file.now ∷ []) }
{
    is_listed && list(listed, file).is_ok()
}

fn list(listed: &mut NameList, file: &Name) -> Result<(), AllocError>
    ensures { OnOk result (listed.new ≡ listed.old ++ file.now ∷ []) }
{
    listed.push(file.clone()?)
}

fn push_bytes(steps: &mut Vec<Step>, at: usize, bytes: &[u8])
    requires { vec_len steps.old + length bytes.now ≤ vec_capacity steps.old }
    ensures steps { steps.new.items ≡ steps.old.items ++ map (λ b. Byte at b) bytes.now }
    ensures len { vec_len steps.new ≡ vec_len steps.old + length bytes.now }
    ensures capacity { vec_capacity steps.new ≡ vec_capacity steps.old }
{
    for byte in bytes {
        steps.push_reserved(Step::Byte(at, *byte));
    }
}

// Where the name has too many owners, some of the first bytes alone may be pushed.
fn push_strays(steps: &mut Vec<Step>, file: &Name, bytes: &[u8]) -> Result<(), AllocError>
    requires { vec_len steps.old + length bytes.now ≤ vec_capacity steps.old }
    ensures steps { OnOk result (steps.new.items ≡ steps.old.items ++ map (λ b. Stray file.now b) bytes.now) }
    ensures len { vec_len steps.new ≤ vec_len steps.old + length bytes.now }
    ensures capacity { vec_capacity steps.new ≡ vec_capacity steps.old }
{
    for byte in bytes {
        steps.push_reserved(Step::Stray(file.clone()?, *byte));
    }
    Ok(())
}
