//! What is shown of a run.
use lb_run::Status;
use std::alloc::{AllocError, AllocFailed};
use std::{io, str};

/// A form of the outside, or memory, failed where it was not to.
#[derive(Debug, Drop)]
pub struct Stop;

impl From<AllocError> for Stop {
    fn from(_e: AllocError) -> Stop {
        Stop
    }
}

impl<T: Drop> From<AllocFailed<T>> for Stop {
    fn from(_e: AllocFailed<T>) -> Stop {
        Stop
    }
}

impl From<io::Error> for Stop {
    fn from(_e: io::Error) -> Stop {
        Stop
    }
}

/// The number of a status, and its message.
pub fn show_status<R: Print + AllocGlobal>(rt: &R, status: &Status) -> Result<(), Stop> {
    let number = status.number();
    print!(rt; "status {number} ")?;
    let message = status.message(rt.alloc())?;
    match str::from_utf8(message.as_slice()) {
        Ok(text) => rt.println(text)?,
        Err(_) => rt.println("?")?,
    }
    Ok(())
}

/// A file: its bytes in hexadecimal if it is a DVI file, else its text.
pub fn show_file<R: Print + AllocGlobal>(rt: &R, name: &[u8], bytes: &[u8]) -> Result<(), Stop> {
    if let Ok(name) = str::from_utf8(name) {
        print!(rt; "== {name}\n")?;
    }
    if name.ends_with(b".dvi") {
        for byte in bytes {
            print!(rt; "{byte:02x}")?;
        }
        rt.println("")?;
        return Ok(());
    }
    match str::from_utf8(bytes) {
        Ok(text) => rt.print(text)?,
        Err(_) => rt.println("?")?,
    }
    Ok(())
}
