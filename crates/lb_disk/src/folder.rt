//! The current folder.
ghost use Rattle.std.specs.Prelude.{◌≡◌, ◌≤◌, ℕ, None};
ghost use Rattle.lb_model.specs.Causes.{Rose};

use lb_base::{Bytes, Name, NameList};
use lb_files::{Folder, FolderStop};
use std::alloc::{AllocError, Global};
use std::fs::{DirEntry, ReadDir};
use std::io::ErrorKind;
use std::rt::Files;
use std::{fs, io, str};

/// How many folders lie within one another below the current one, at most.
const DEPTH: u8 = 16;

/// The files of the current folder and of the folders in it. The parts of a name are joined by `/`,
/// so that a file of the current folder has its plain name.
///
/// A link to a file counts as that file, and a link to a folder is not entered. A file whose name is
/// no UTF-8 text cannot be opened, so it is passed over. A folder that cannot be listed is a fault.
#[derive(Drop)]
pub struct DiskFolder<R: Files + AllocGlobal + Clone + Drop> {
    rt: R,
    faults: u64,
}

impl<R: Files + AllocGlobal + Clone + Drop> DiskFolder<R> {
    pub fn new(rt: R) -> DiskFolder<R>
        ensures { result.faults ≡ 0 }
    {
        DiskFolder { rt, faults: 0 }
    }

    pub fn faults(&self) -> u64
        ensures { result ≡ self.now.faults }
    {
        self.faults
    }

    // Counts a fault, and none where there was only no memory.
    fn stopped(&mut self, stop: DiskStop) -> FolderStop
        ensures later { self.old.faults ≤ self.new.faults }
        ensures rose { result ≡ FolderStop.Failed → Rose self.old.faults self.new.faults }
    {
        match stop {
            DiskStop::Memory => FolderStop::Memory,
            DiskStop::Failed => {
                self.faults = self.faults.saturating_add(1);
                FolderStop::Failed
            }
        }
    }
}

impl<R: Files + AllocGlobal + Clone + Drop> Folder for DiskFolder<R> {
    ghost contents = { λ folder. None };

    ghost faults = { λ folder. folder.faults };

    fn names(&mut self, alloc: Global) -> Result<NameList, FolderStop> {
        match list_files(&self.rt, alloc) {
            Ok(names) => Ok(names),
            Err(stop) => Err(self.stopped(stop)),
        }
    }

    fn read(&mut self, _alloc: Global, name: &Name) -> Result<Bytes, FolderStop> {
        match read_file(&self.rt, name) {
            Ok(bytes) => Ok(bytes),
            Err(stop) => Err(self.stopped(stop)),
        }
    }
}

/// Why the disk gave nothing.
#[derive(Clone, Copy)]
enum DiskStop {
    Memory,
    Failed,
}

impl From<AllocError> for DiskStop {
    fn from(_e: AllocError) -> DiskStop {
        DiskStop::Memory
    }
}

impl From<io::Error> for DiskStop {
    fn from(e: io::Error) -> DiskStop {
        if e.kind() == ErrorKind::OutOfMemory {
            DiskStop::Memory
        } else {
            DiskStop::Failed
        }
    }
}

fn read_file<R: Files + AllocGlobal>(rt: &R, name: &Name) -> Result<Bytes, DiskStop> {
    match str::from_utf8(name.as_slice()) {
        Ok(path) => Ok(Bytes::from_vec(fs::read(rt, path)?)),
        Err(_) => Err(DiskStop::Failed),
    }
}

// Goes from the current folder down, all the folders of one depth after those of the one before.
fn list_files<R: Files + AllocGlobal + Clone + Drop>(
    rt: &R,
    alloc: Global,
) -> Result<NameList, DiskStop> {
    let mut names = NameList::new(alloc);
    let mut folders = Vec::new(alloc);
    folders.push(String::new(alloc)).map_err(AllocError::from)?;
    for _ in 0..=DEPTH {
        let mut below = Vec::new(alloc);
        for folder in &folders {
            list_folder(rt, alloc, folder.as_str(), &mut names, &mut below)?;
        }
        folders = below;
    }
    Ok(names)
}

// `prefix` is the folder's path with a slash behind it, and empty for the current folder.
fn list_folder<R: Files + AllocGlobal + Clone + Drop>(
    rt: &R,
    alloc: Global,
    prefix: &str,
    names: &mut NameList,
    below: &mut Vec<String>,
) -> Result<(), DiskStop> {
    let path = if prefix.is_empty() { "." } else { prefix };
    for entry in fs::read_dir(rt, path)? {
        match entry {
            Ok(entry) => take_entry(rt, alloc, prefix, &entry, names, below)?,
            Err(e) if e.kind() == ErrorKind::InvalidFilename => {}
            Err(e) => return Err(DiskStop::from(e)),
        }
    }
    Ok(())
}

fn take_entry<R: Files + AllocGlobal + Clone + Drop>(
    rt: &R,
    alloc: Global,
    prefix: &str,
    entry: &DirEntry<R, Global>,
    names: &mut NameList,
    below: &mut Vec<String>,
) -> Result<(), DiskStop> {
    let kind = entry.file_type()?;
    let mut name = String::from_str(alloc, prefix)?;
    name.push_str(entry.file_name())?;
    if kind.is_dir() {
        name.push('/')?;
        below.push(name).map_err(AllocError::from)?;
    } else if kind.is_file() || (kind.is_symlink() && leads_to_file(rt, name.as_str())) {
        names.push(Name::from_slice(alloc, name.as_bytes())?)?;
    }
    Ok(())
}

fn leads_to_file(rt: &impl Files, path: &str) -> bool {
    match fs::metadata(rt, path) {
        Ok(metadata) => metadata.is_file(),
        Err(_) => false,
    }
}
