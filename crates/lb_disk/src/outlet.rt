//! Files of the current folder that are written.
ghost use Rattle.std.specs.Prelude.{◌≡◌, ◌≤◌, ◌<◌, ◌-◌, ℕ, None, length, IfOk, IfSome, IsErr};
ghost use Rattle.lb_model.specs.Causes.{HasCause};

use lb_base::{Name, NoMemory};
use lb_files::{Failed, Outlet};
use std::alloc::{AllocError, Global};
use std::fs::OpenOptions;
use std::io::{ErrorKind, Write};
use std::os::unix::fs::FileTypeExt;
use std::rt::Files;
use std::{fs, io, str};

/// How many files are open at one time, at most.
const OPEN: usize = 8;

#[derive(Drop)]
struct Opened<R: Files> {
    name: Name,
    file: R::File,
}

/// Writes files in the current folder. It makes no folder, so a name in a folder that is not there
/// is a fault.
///
/// What is written is a file, or a device that takes bytes one after another. Anything else that has the name, as a
/// folder or a pipe, is a fault, and nobody waits for a reader.
///
/// An append has left the program when its call answers. At most eight files stay open between the
/// calls: where a ninth is wanted, the one used longest ago is closed, and it is opened again at its
/// end when bytes come for it. An error that the system tells only when a file is closed is not seen,
/// since the standard library closes a file where it is dropped and tells nothing of it.
#[derive(Drop)]
pub struct DiskOutlet<R: Files + Clone + Drop> {
    rt: R,
    // those that are open, the one used last at the end
    files: Vec<Opened<R>>,
    faults: u64,
}

impl<R: Files + Clone + Drop> DiskOutlet<R> {
    pub fn new(rt: R, alloc: Global) -> Result<DiskOutlet<R>, NoMemory>
        ensures { IfOk result (λ outlet. outlet.faults ≡ 0) }
    {
        Ok(DiskOutlet {
            rt,
            files: Vec::with_capacity(alloc, OPEN)?,
            faults: 0,
        })
    }

    pub fn faults(&self) -> u64
        ensures { result ≡ self.now.faults }
    {
        self.faults
    }

    fn fail(&mut self) -> Result<(), Failed>
        ensures cause { HasCause self.old.faults self.new.faults result }
        ensures err { IsErr result }
    {
        self.faults = self.faults.saturating_add(1);
        Err(Failed)
    }
}

impl<R: Files + Clone + Drop> Outlet for DiskOutlet<R> {
    ghost journal = { λ outlet. None };

    ghost faults = { λ outlet. outlet.faults };

    fn begin(&mut self, file: &Name) -> Result<(), Failed> {
        match begin_file(&self.rt, &mut self.files, file) {
            Ok(()) => Ok(()),
            Err(_) => self.fail(),
        }
    }

    fn append(&mut self, file: &Name, bytes: &[u8]) -> Result<(), Failed> {
        match append_to(&self.rt, &mut self.files, file, bytes) {
            Ok(()) => Ok(()),
            Err(_) => self.fail(),
        }
    }
}

fn begin_file<R: Files>(rt: &R, files: &mut Vec<Opened<R>>, name: &Name) -> io::Result<()> {
    if let Some(at) = place_of(files, name) {
        drop(files.remove(at));
    }
    let path = path_of(name)?;
    refuse_pipes(rt, path)?;
    let file = fs::create(rt, path)?;
    keep_open(files, name, file)
}

fn append_to<R: Files>(
    rt: &R,
    files: &mut Vec<Opened<R>>,
    name: &Name,
    bytes: &[u8],
) -> io::Result<()> {
    if let Some(at) = place_of(files, name) {
        files[at..].rotate_left(1);
    } else {
        let path = path_of(name)?;
        refuse_pipes(rt, path)?;
        let file = OpenOptions::new().append(true).open(rt, path)?;
        keep_open(files, name, file)?;
    }
    match files.last_mut() {
        Some(last) => last.file.write_all(bytes),
        None => Err(io::Error::from(ErrorKind::NotFound)),
    }
}

/// Refuses what is there and is neither a file nor a device that takes bytes one after another.
fn refuse_pipes<R: Files>(rt: &R, path: &str) -> io::Result<()> {
    let Ok(found) = fs::metadata(rt, path) else {
        return Ok(());
    };
    let kind = found.file_type();
    if kind.is_file() || kind.is_char_device() {
        Ok(())
    } else {
        Err(io::Error::from(ErrorKind::InvalidInput))
    }
}

fn keep_open<R: Files>(files: &mut Vec<Opened<R>>, name: &Name, file: R::File) -> io::Result<()> {
    if files.len() >= OPEN {
        drop(files.remove(0));
    }
    let name = name.clone()?;
    files.push(Opened { name, file }).map_err(AllocError::from)?;
    Ok(())
}

fn place_of<R: Files>(files: &[Opened<R>], name: &Name) -> Option<usize>
    ensures { IfSome result (λ at. at < length files.now) }
{
    for (at, opened) in files.iter().enumerate() {
        if opened.name == *name {
            return Some(at);
        }
    }
    None
}

fn path_of(name: &Name) -> io::Result<&str> {
    match str::from_utf8(name.as_slice()) {
        Ok(path) => Ok(path),
        Err(_) => Err(io::Error::from(ErrorKind::InvalidFilename)),
    }
}
