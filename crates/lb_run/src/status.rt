//! How a run ends.
ghost use Rattle.std.specs.Prelude.{◌≡◌, ◌++◌, IfOk, codes, decimal};
ghost use Rattle.lb_run.specs.Statuses.{number_of, message_of, fault_message};

use lb_base::{Bytes, Fault, NoMemory};
use lb_files::Size;
use std::alloc::Global;
use std::{io, str};

/// How a run ends. Statuses from `ReadFault` on say nothing of the input.
#[derive(Clone, Drop, PartialEq, Eq)]
pub enum Status {
    /// All was set and written.
    Done,
    /// The first fault of the input.
    Fault(Fault),
    /// The words are none that a run takes.
    Words,
    /// The folder could not be listed, or a file of it not be read.
    ReadFault,
    /// A file could not be written. What was written before stands.
    WriteFault,
    /// There was not enough memory. What was written before stands.
    NoMemory,
    /// A line could not be said.
    SayFault,
    /// The input passes a limit of size.
    TooLarge(Size, u64),
    /// The main file is not there.
    NoMain,
}

impl Status {
    /// The exit status of a program that ends so.
    pub fn number(&self) -> u8
        ensures { result ≡ number_of self.now }
    {
        match self {
            Status::Done => 0,
            Status::Fault(_) => 1,
            Status::Words => 2,
            Status::ReadFault => 3,
            Status::WriteFault => 4,
            Status::NoMemory => 5,
            Status::SayFault => 6,
            Status::TooLarge(_, _) => 7,
            Status::NoMain => 8,
        }
    }

    /// The line that a program says of it on standard error: nothing after `Done`.
    pub fn message(&self, alloc: Global) -> Result<Bytes, NoMemory>
        ensures { IfOk result (λ text. text ≡ message_of self.now) }
    {
        match self {
            Status::Done => Bytes::from_slice(alloc, b""),
            Status::Fault(fault) => fault_line(alloc, fault),
            Status::Words => Bytes::from_slice(alloc, b"words refused"),
            Status::ReadFault => Bytes::from_slice(alloc, b"read fault"),
            Status::WriteFault => Bytes::from_slice(alloc, b"write fault"),
            Status::NoMemory => Bytes::from_slice(alloc, b"no memory"),
            Status::SayFault => Bytes::from_slice(alloc, b"print fault"),
            Status::TooLarge(_, number) => size_line(alloc, *number),
            Status::NoMain => Bytes::from_slice(alloc, b"no main"),
        }
    }

    /// Tells on standard error what kept a run from its end, if anything did.
    pub fn tell<R: Eprint + AllocGlobal>(&self, rt: &R) -> io::Result<()> {
        if *self == Status::Done {
            return Ok(());
        }
        let message = self.message(rt.alloc())?;
        match str::from_utf8(message.as_slice()) {
            Ok(line) => rt.eprintln(line),
            Err(_) => rt.eprintln("the fault is in a file whose name is no text"),
        }
    }
}

fn fault_line(alloc: Global, fault: &Fault) -> Result<Bytes, NoMemory>
    ensures { IfOk result (λ text. text ≡ fault_message fault.now) }
{
    let mut text = Bytes::from_slice(alloc, b"fault ")?;
    text.extend_from_slice(fault.kind.name().as_bytes())?;
    text.extend_from_slice(b" ")?;
    text.extend_from_slice(fault.file.as_slice())?;
    text.extend_from_slice(b":")?;
    text.extend_from_slice(fault.line.to_string(alloc)?.as_bytes())?;
    Ok(text)
}

fn size_line(alloc: Global, number: u64) -> Result<Bytes, NoMemory>
    ensures { IfOk result (λ text. text ≡ codes "too large " ++ decimal number) }
{
    let mut text = Bytes::from_slice(alloc, b"too large ")?;
    text.extend_from_slice(number.to_string(alloc)?.as_bytes())?;
    Ok(text)
}
