//! The terminal as a printer.
ghost use Rattle.std.specs.Prelude.{◌≡◌, ◌≤◌, ℕ, None, IsErr, OnErr};
ghost use Rattle.lb_model.specs.Causes.{Rose, HasCause};

use lb_files::{Failed, Said};
use std::io;
use std::io::Write;

/// Says lines on standard output. It tells nothing of what was said.
#[derive(Drop)]
pub struct TermSaid<R: Print + Clone + Drop> {
    rt: R,
    faults: u64,
}

impl<R: Print + Clone + Drop> TermSaid<R> {
    pub fn new(rt: R) -> TermSaid<R>
        ensures { result.faults ≡ 0 }
    {
        TermSaid { rt, faults: 0 }
    }

    pub fn faults(&self) -> u64
        ensures { result ≡ self.now.faults }
    {
        self.faults
    }

    fn fail(&mut self) -> Result<(), Failed>
        ensures cause { HasCause self.old.faults self.new.faults result }
        ensures err { IsErr result }
    {
        self.faults = self.faults.saturating_add(1);
        Err(Failed)
    }
}

impl<R: Print + Clone + Drop> Said for TermSaid<R> {
    ghost bytes = { λ said. None };

    ghost faults = { λ said. said.faults };

    fn say(&mut self, line: &[u8]) -> Result<(), Failed> {
        match print_line(&self.rt, line) {
            Ok(()) => Ok(()),
            Err(_) => self.fail(),
        }
    }
}

fn print_line<R: Print>(rt: &R, line: &[u8]) -> io::Result<()> {
    let mut out = io::writer(rt);
    out.write_all(line)?;
    out.write_all(b"\n")
}
