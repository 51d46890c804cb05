//! The forms of the outside at work: each is led through the same steps, and what it then has is shown.
use crate::shown::{Stop, show_file};
use lb_base::{Bytes, FileList, Name, NumberList};
use lb_disk::{DiskFolder, DiskOutlet, TermSaid};
use lb_files::{
    Folder, MemFolder, MemOutlet, MemSaid, Outlet, Said, SureFolder, SureOutlet, SureSaid,
};
use std::alloc::{AllocError, Global};
use std::fs;
use std::rt::Files;

/// The names of ten files, which the digits from 0 to 9 are.
const NAMES: &str = "0123456789";

pub fn show_forms<R>(rt: &R) -> Result<(), Stop>
where
    R: Files + Print + AllocGlobal + Clone + Drop,
{
    let alloc = rt.alloc();
    show_memory_outlets(rt, alloc)?;
    show_memory_folders(rt, alloc)?;
    show_memory_printers(rt, alloc)?;
    show_disk_outlet(rt, alloc)?;
    show_disk_folder(rt, alloc)?;
    say_lines(&mut TermSaid::new(rt.clone()?));
    Ok(())
}

/// Begins each file, appends to all of them twice, and begins one of them again. Answers how many
/// calls failed.
fn lead_outlet<O: Outlet>(alloc: Global, outlet: &mut O) -> Result<u32, AllocError> {
    let mut failed = 0u32;
    for digit in NAMES.bytes() {
        let name = Name::from_slice(alloc, &[digit])?;
        if outlet.begin(&name).is_err() {
            failed = failed.saturating_add(1);
        }
    }
    for part in "a bc".split_whitespace() {
        failed = failed.saturating_add(append_to_all(alloc, outlet, part.as_bytes())?);
    }
    if outlet.begin(&Name::from_slice(alloc, b"3")?).is_err() {
        failed = failed.saturating_add(1);
    }
    Ok(failed)
}

/// Appends to each file. Answers how many calls failed.
fn append_to_all<O: Outlet>(alloc: Global, outlet: &mut O, part: &[u8]) -> Result<u32, AllocError> {
    let mut failed = 0u32;
    for digit in NAMES.bytes() {
        let name = Name::from_slice(alloc, &[digit])?;
        if outlet.append(&name, part).is_err() {
            failed = failed.saturating_add(1);
        }
    }
    Ok(failed)
}

fn show_memory_outlets<R: Print + AllocGlobal>(rt: &R, alloc: Global) -> Result<(), Stop> {
    let mut outlet = MemOutlet::new(alloc, NumberList::from_slice(alloc, &[4, 11])?)?;
    let failed = lead_outlet(alloc, &mut outlet)?;
    println!(rt; "a memory outlet: {failed} failed")?;
    for name in outlet.begun().as_slice() {
        if let Some(bytes) = outlet.file(name) {
            show_file(rt, name.as_slice(), bytes)?;
        }
    }
    let mut sure = SureOutlet::with_room(alloc, 100)?;
    let failed = lead_outlet(alloc, &mut sure)?;
    println!(rt; "\na sure outlet: {failed} failed")?;
    for name in sure.begun().as_slice() {
        if let Some(bytes) = sure.file(name) {
            show_file(rt, name.as_slice(), bytes)?;
        }
    }
    rt.println("")?;
    Ok(())
}

fn files(alloc: Global) -> Result<FileList, AllocError> {
    let mut list = FileList::new(alloc);
    for file in "b.tex a.aux c.dvi".split_whitespace() {
        let bytes = Bytes::from_slice(alloc, file.as_bytes())?;
        list.push((Name::from_slice(alloc, file.as_bytes())?, bytes))?;
    }
    Ok(list)
}

/// Lists a folder twice, and shows its files after the second list. A call that fails is shown, too.
fn show_folder<R: Print + AllocGlobal, F: Folder>(rt: &R, folder: &mut F) -> Result<(), Stop> {
    let alloc = rt.alloc();
    if folder.names(alloc).is_err() {
        rt.println("no list")?;
    }
    let Ok(names) = folder.names(alloc) else {
        rt.println("no second list")?;
        return Ok(());
    };
    for name in names.as_slice() {
        match folder.read(alloc, name) {
            Ok(bytes) => show_file(rt, name.as_slice(), bytes.as_slice())?,
            Err(_) => rt.println("no file")?,
        }
    }
    rt.println("")?;
    Ok(())
}

fn show_memory_folders<R: Print + AllocGlobal>(rt: &R, alloc: Global) -> Result<(), Stop> {
    rt.println("a memory folder")?;
    let failing = NumberList::from_slice(alloc, &[0, 3])?;
    show_folder(rt, &mut MemFolder::new(alloc, files(alloc)?, failing)?)?;
    rt.println("a sure folder")?;
    show_folder(rt, &mut SureFolder::new(alloc, files(alloc)?)?)
}

/// Says three lines, and answers how many calls failed.
fn say_lines<S: Said>(said: &mut S) -> u32 {
    let mut failed = 0u32;
    for line in "one two three".split_whitespace() {
        if said.say(line.as_bytes()).is_err() {
            failed = failed.saturating_add(1);
        }
    }
    failed
}

fn show_memory_printers<R: Print + AllocGlobal>(rt: &R, alloc: Global) -> Result<(), Stop> {
    let mut said = MemSaid::new(alloc, NumberList::from_slice(alloc, &[1])?)?;
    let failed = say_lines(&mut said);
    println!(rt; "a memory printer: {failed} failed")?;
    show_file(rt, b"said", said.text())?;
    let mut sure = SureSaid::with_room(alloc, 8)?;
    let failed = say_lines(&mut sure);
    println!(rt; "a sure printer: {failed} failed")?;
    show_file(rt, b"said", sure.text())
}

/// The disk: ten files, of which eight are open at one time, and one in a folder that is not there.
fn show_disk_outlet<R>(rt: &R, alloc: Global) -> Result<(), Stop>
where
    R: Files + Print + AllocGlobal + Clone + Drop,
{
    fs::create_dir_all(rt, "sub/low")?;
    let mut outlet = DiskOutlet::new(rt.clone()?, alloc)?;
    let failed = lead_outlet(alloc, &mut outlet)?;
    println!(rt; "a disk outlet: {failed} failed")?;
    for start in 0..NAMES.len() {
        if let Some(file) = NAMES.get(start..start + 1) {
            let bytes = fs::read(rt, file)?;
            show_file(rt, file.as_bytes(), &bytes)?;
        }
    }
    let gone = Name::from_slice(alloc, b"gone/1")?;
    let refused = outlet.begin(&gone).is_err();
    let faults = outlet.faults();
    println!(rt; "\nno folder: {refused}, faults {faults}")?;
    Ok(())
}

/// The disk's files with names in `sub`, in order.
fn show_disk_folder<R>(rt: &R, alloc: Global) -> Result<(), Stop>
where
    R: Files + Print + AllocGlobal + Clone + Drop,
{
    for path in "sub/c.aux sub/low/d.toc".split_whitespace() {
        fs::write(rt, path, path)?;
    }
    rt.symlink("c.aux", "sub/link.aux")?;
    rt.symlink("..", "sub/up")?;
    let mut folder = DiskFolder::new(rt.clone()?);
    let Ok(names) = folder.names(alloc) else {
        return Err(Stop);
    };
    let mut names = names.into_vec();
    names.sort_unstable();
    rt.println("a disk folder")?;
    for name in &names {
        if !name.as_slice().starts_with(b"sub/") {
            continue;
        }
        let Ok(bytes) = folder.read(alloc, name) else {
            return Err(Stop);
        };
        show_file(rt, name.as_slice(), bytes.as_slice())?;
    }
    rt.println("")?;
    Ok(())
}
