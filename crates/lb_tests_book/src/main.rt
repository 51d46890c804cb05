//! Whole runs over memory, shown on standard output. Each argument names a book: the files of the
//! current folder whose names begin with that name and `@`, less that beginning, and the test font.
//! Behind `stops:` it is run again and again, with one call failing each time.
#![tactic(auto)]

mod forms;
mod shown;

use lb_base::{Bytes, FileList, Moment, Name, NumberList};
use lb_disk::DiskFolder;
use lb_files::{MemFolder, MemOutlet, MemSaid, load};
use lb_run::{Status, run};
use lb_values::Shared;
use shown::{Stop, show_file, show_status};
use std::alloc::{AllocError, Global};
use std::env;
use std::rt::{Env, Files};
use std::thread::Threads;

const FONT: &[u8] = b"cmr10.tfm";

fn main(rt: HostRuntime) -> Result<(), Stop> {
    let alloc = rt.alloc();
    let world = load(alloc, &mut DiskFolder::new(rt.clone()?)).map_err(|_| Stop)?;
    let mut words = Vec::new(alloc);
    for word in env::args(&rt)?.skip(1) {
        words.push(word)?;
    }
    forms::show_forms(&rt)?;
    show_words(&rt, world.files.as_slice())?;
    show_all(&rt, world.files.as_slice(), &words)
}

/// The statuses of words that are not of the form that is taken, and of a main file that is not there.
fn show_words<R>(rt: &R, all: &[(Name, Shared<Bytes>)]) -> Result<(), Stop>
where
    R: Print + AllocGlobal + Threads + Sync,
{
    let alloc = rt.alloc();
    for line in "|set|gen 4|set main.tex|set --help|set main x|set none".split('|') {
        let files = files_of(alloc, all, "row1")?;
        let (status, _) = set(rt, alloc, line, files, &[], &[])?;
        println!(rt; "words: {line}")?;
        show_status(rt, &status)?;
    }
    Ok(())
}

fn show_all<R>(rt: &R, all: &[(Name, Shared<Bytes>)], words: &[String]) -> Result<(), Stop>
where
    R: Print + AllocGlobal + Threads + Sync,
{
    for word in words {
        match word.as_str().strip_prefix("stops:") {
            Some(book) => show_stops(rt, all, book)?,
            None => show_book(rt, all, word.as_str())?,
        }
    }
    Ok(())
}

/// The files of a book.
fn files_of(
    alloc: Global,
    all: &[(Name, Shared<Bytes>)],
    book: &str,
) -> Result<FileList, AllocError> {
    let mut files = FileList::new(alloc);
    for file in all {
        if let Some(name) = name_in(file.0.as_slice(), book.as_bytes()) {
            let bytes = Bytes::from_slice(alloc, file.1.get().as_slice())?;
            files.push((Name::from_slice(alloc, name)?, bytes))?;
        }
    }
    Ok(files)
}

/// The name that a file has in a book, None where it is no file of it.
fn name_in<'a>(name: &'a [u8], book: &[u8]) -> Option<&'a [u8]> {
    if name == FONT {
        return Some(name);
    }
    name.strip_prefix(book)?.strip_prefix(b"@")
}

/// Runs with the words of a line, where the calls of these numbers fail.
fn set<R: Threads + Sync>(
    rt: &R,
    alloc: Global,
    line: &str,
    files: FileList,
    folder_fails: &[u64],
    outlet_fails: &[u64],
) -> Result<(Status, MemOutlet), AllocError> {
    let mut words = Vec::new(alloc);
    for word in line.split_whitespace() {
        words.push(String::from_str(alloc, word)?)?;
    }
    let folder_fails = NumberList::from_slice(alloc, folder_fails)?;
    let outlet_fails = NumberList::from_slice(alloc, outlet_fails)?;
    let mut folder = MemFolder::new(alloc, files, folder_fails)?;
    let mut outlet = MemOutlet::new(alloc, outlet_fails)?;
    let mut said = MemSaid::new(alloc, NumberList::new(alloc))?;
    let status = run(
        rt,
        alloc,
        &words,
        Moment::FIXED,
        &mut folder,
        &mut outlet,
        &mut said,
    );
    Ok((status, outlet))
}

/// Shows how a book ends, and the files that were begun in the order of their first begin.
fn show_book<R>(rt: &R, all: &[(Name, Shared<Bytes>)], book: &str) -> Result<(), Stop>
where
    R: Print + AllocGlobal + Threads + Sync,
{
    let alloc = rt.alloc();
    let files = files_of(alloc, all, book)?;
    let (status, outlet) = set(rt, alloc, "set main", files, &[], &[])?;
    rt.println(book)?;
    show_status(rt, &status)?;
    for name in outlet.begun().as_slice() {
        if let Some(bytes) = outlet.file(name) {
            show_file(rt, name.as_slice(), bytes)?;
        }
    }
    Ok(())
}

/// Shows a book with its k-th call of the outlet failing, for each k until none does, and then the
/// same of the folder: the status, and how many bytes each file has.
fn show_stops<R>(rt: &R, all: &[(Name, Shared<Bytes>)], book: &str) -> Result<(), Stop>
where
    R: Print + AllocGlobal + Threads + Sync,
{
    let alloc = rt.alloc();
    for k in 0..100 {
        let files = files_of(alloc, all, book)?;
        let (status, outlet) = set(rt, alloc, "set main", files, &[], &[k])?;
        show_lengths(rt, k, &status, &outlet)?;
        if status == Status::Done {
            break;
        }
    }
    for k in 0..100 {
        let files = files_of(alloc, all, book)?;
        let (status, outlet) = set(rt, alloc, "set main", files, &[k], &[])?;
        show_lengths(rt, k, &status, &outlet)?;
        if status == Status::Done {
            break;
        }
    }
    Ok(())
}

fn show_lengths<R>(rt: &R, k: u64, status: &Status, outlet: &MemOutlet) -> Result<(), Stop>
where
    R: Print + AllocGlobal,
{
    let number = status.number();
    print!(rt; "{k} status {number}")?;
    for name in outlet.begun().as_slice() {
        let length = outlet.file(name).map_or(0, |bytes| bytes.len());
        print!(rt; " {length}")?;
    }
    rt.println("")?;
    Ok(())
}
