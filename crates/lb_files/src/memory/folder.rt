//! Folders in memory.
ghost use Rattle.std.specs.Prelude.{◌≡◌, ◌≤◌, IfOk, IfErr, IfSome, IsErrOf, IsPermutation, Some};
ghost use Rattle.std.specs.FinMap as map;
ghost use Rattle.lb_model.specs.Causes.{Rose};

use super::calls::Calls;
use crate::outside::{Folder, FolderStop};
use lb_base::{Bytes, FileList, Name, NameList, NoMemory, NumberList};
use lb_model::FileMap;
use lb_values::Shared;
use std::alloc::{AllocError, Global};
use std::marker::Model;

/// A folder that fails at the calls that it is told to fail at, and at a name that it does not have.
#[derive(Drop)]
pub struct MemFolder {
    files: FileMap,
    calls: Calls,
}

impl Model for MemFolder {
    ghost use Rattle.lb_files.specs.Forms.{FolderForm, folder_form_code};

    ghost Value = { FolderForm };

    ghost coded = { folder_form_code };

    ghost view = { λ folder. record { files = folder.files; faults = folder.calls.faults } };
}

impl MemFolder {
    /// `failing` has the numbers, from 0, of the calls that fail. Of files with one name the first counts.
    pub fn new(alloc: Global, files: FileList, failing: NumberList) -> Result<MemFolder, NoMemory>
        ensures files { IfOk result (λ folder. folder.files ≡ map.from_entries files) }
        ensures faults { IfOk result (λ folder. folder.faults ≡ 0) }
    {
        Ok(MemFolder {
            files: map_of(alloc, files)?,
            calls: Calls::new(failing),
        })
    }

    pub fn faults(&self) -> u64
        ensures { result ≡ self.now.faults }
    {
        self.calls.faults
    }

    fn fault(&mut self) -> FolderStop
        ensures files { self.new.files ≡ self.old.files }
        ensures later { self.old.faults ≤ self.new.faults }
        ensures rose { Rose self.old.faults self.new.faults }
    {
        self.calls.count_fault();
        FolderStop::Failed
    }
}

impl Folder for MemFolder {
    ghost contents = { λ folder. Some folder.files };

    ghost faults = { λ folder. folder.faults };

    fn names(&mut self, alloc: Global) -> Result<NameList, FolderStop> {
        if self.calls.is_to_fail() {
            return Err(self.fault());
        }
        names_of(alloc, &self.files)
    }

    fn read(&mut self, alloc: Global, name: &Name) -> Result<Bytes, FolderStop> {
        if self.calls.is_to_fail() {
            return Err(self.fault());
        }
        match self.files.get(name) {
            Some(bytes) => copy_of(alloc, bytes),
            None => Err(self.fault()),
        }
    }
}

/// A folder that never fails, though a list or a copy may find no memory. A file that it does not
/// have reads as empty.
#[derive(Drop)]
pub struct SureFolder {
    files: FileMap,
}

impl Model for SureFolder {
    ghost use Rattle.std.specs.FinMap as map;
    ghost use Rattle.std.specs.Coded.{coded_ℕ, coded_list};
    ghost use Rattle.lb_model.specs.Files.{Files};

    ghost Value = { Files };

    ghost coded = { map.code (coded_list coded_ℕ) (coded_list coded_ℕ) };

    ghost view = { λ folder. folder.files };
}

impl SureFolder {
    /// Of files with one name the first counts.
    pub fn new(alloc: Global, files: FileList) -> Result<SureFolder, NoMemory>
        ensures { IfOk result (λ folder. folder ≡ map.from_entries files) }
    {
        Ok(SureFolder {
            files: map_of(alloc, files)?,
        })
    }
}

impl Folder for SureFolder {
    ghost contents = { λ folder. Some folder };

    ghost faults = { λ folder. 0 };

    fn names(&mut self, alloc: Global) -> Result<NameList, FolderStop> {
        names_of(alloc, &self.files)
    }

    fn read(&mut self, alloc: Global, name: &Name) -> Result<Bytes, FolderStop> {
        match self.files.get(name) {
            Some(bytes) => copy_of(alloc, bytes),
            None => Ok(Bytes::new(alloc)),
        }
    }
}

// The last goes in first, so that the first of files with one name stays.
fn map_of(alloc: Global, files: FileList) -> Result<FileMap, AllocError>
    ensures { IfOk result (λ made. made ≡ map.from_entries files) }
{
    let mut rest = files.into_vec();
    let mut made = FileMap::new(alloc);
    while let Some((name, bytes)) = rest.pop() {
        let shared = Shared::new(alloc, bytes)?;
        made.insert(name, shared)?;
    }
    Ok(made)
}

fn names_of(alloc: Global, files: &FileMap) -> Result<NameList, FolderStop>
    ensures names { IfOk result (λ names. names ≡ map.keys files.now) }
    ensures err { IfErr result (λ e. e ≡ FolderStop.Memory) }
{
    let mut names = NameList::new(alloc);
    for file in files.as_slice() {
        names.push(file.0.clone()?)?;
    }
    Ok(names)
}

fn copy_of(alloc: Global, bytes: &Bytes) -> Result<Bytes, FolderStop>
    ensures copy { IfOk result (λ copy. copy ≡ bytes.now) }
    ensures err { IfErr result (λ e. e ≡ FolderStop.Memory) }
{
    Ok(Bytes::from_slice(alloc, bytes.as_slice())?)
}
