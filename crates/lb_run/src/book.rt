//! Writes a book: its beginning, its chapters in order, and its end.
ghost use Rattle.std.specs.Prelude.{◌≡◌, ◌+◌, ◌++◌, ◌≤◌, ◌<◌, [], length, IfOk, OnOk, OnErr, IsErrOf, IsTrue, IsOkAnd, MatchResult};
ghost use Rattle.std.specs.List.{flat_map, AllByRecursion};
ghost use Rattle.lb_model.specs.Journal.{begun_with, Adds, AddsPrefix};
ghost use Rattle.lb_model.specs.Causes.{Rose};
ghost use Rattle.lb_model_paper.specs.Dvi.{progress, progress_at_start};
ghost use Rattle.lb_model_book.specs.PlainForm.{is_plain_chapter};
ghost use Rattle.lb_model_book.specs.Books.{book_start, book_pages, chapters_part, book_journal};
ghost use Rattle.lb_run.specs.Names.{IsNamedFor, starts_by, ends_by};
ghost use Rattle.lb_run.specs.Writes.{entries_of};
ghost use Rattle.lb_run.specs.Parts.{after_chapter, part_at, end_at, IsPlainFile};

use crate::chapter::chapter_writes;
use crate::names::BookFiles;
use crate::texts;
use crate::writes::{Write, perform_all};
use lb_base::{Bytes, Name, NoMemory};
use lb_dvi::{Writer, preamble};
use lb_files::Outlet;
use lb_model::World;
use std::alloc::Global;

/// Why a book was not written to its end.
#[derive(Clone, Copy, PartialEq, Eq)]
pub enum BookStop {
    Memory,
    Failed,
}

/// A file begun, and its first bytes.
fn push_begun(writes: &mut Vec<Write>, file: &Name, bytes: Bytes) -> Result<(), NoMemory>
    ensures { OnOk result (flat_map entries_of writes.new.items ≡ flat_map entries_of writes.old.items ++ begun_with file.now bytes) }
{
    writes.push(Write::Begin(file.clone()?))?;
    writes.push(Write::Append(file.clone()?, bytes))?;
    Ok(())
}

fn start_writes(alloc: Global, files: &BookFiles, world: &World) -> Result<Vec<Write>, NoMemory>
    ensures { IfOk result (λ writes. flat_map entries_of writes.items ≡ starts_by files.now world.now) }
{
    let mut writes = Vec::new(alloc);
    push_begun(
        &mut writes,
        &files.log,
        texts::log_start(alloc, &world.main)?,
    )?;
    push_begun(&mut writes, &files.dvi, preamble(alloc, world.moment)?)?;
    push_begun(&mut writes, &files.aux, texts::relax_line(alloc)?)?;
    Ok(writes)
}

fn end_writes(
    alloc: Global,
    files: &BookFiles,
    world: &World,
    writer: Writer,
) -> Result<Vec<Write>, NoMemory>
    ensures { IfOk result (λ writes. flat_map entries_of writes.items ≡ ends_by files.now world.now writer) }
{
    let pages = writer.pages();
    let place = u64::from(writer.place());
    let postamble = writer.finish(alloc)?;
    let bytes = place + postamble.len() as u64;
    let line = texts::log_end(alloc, &world.main, pages, bytes)?;
    let mut writes = Vec::new(alloc);
    writes.push(Write::Append(files.dvi.clone()?, postamble))?;
    writes.push(Write::Append(files.log.clone()?, line))?;
    Ok(writes)
}

/// Makes what a chapter writes, and writes it.
fn write_chapter<O: Outlet>(
    alloc: Global,
    files: &BookFiles,
    world: &World,
    name: &Name,
    writer: &mut Writer,
    outlet: &mut O,
) -> Result<(), BookStop>
    requires named { IsNamedFor world.now files.now }
    requires plain { IsTrue (is_plain_chapter world.now name.now) }
    requires file { IsPlainFile writer.old }
    requires few { writer.old.pages < 1000 }
    ensures ok { OnOk result (Adds (O.journal outlet.old) (O.journal outlet.new) (part_at world.now writer.old name.now)) }
    ensures after { OnOk result (writer.new ≡ after_chapter world.now writer.old name.now) }
    ensures file { OnOk result (IsPlainFile writer.new) }
    ensures few { OnOk result (writer.new.pages ≤ writer.old.pages + 1) }
    ensures err { OnErr result (AddsPrefix (O.journal outlet.old) (O.journal outlet.new) (part_at world.now writer.old name.now)) }
    ensures later { O.faults outlet.old ≤ O.faults outlet.new }
    ensures failed { IsErrOf result BookStop.Failed → Rose (O.faults outlet.old) (O.faults outlet.new) }
{
    let writes = match chapter_writes(alloc, files, world, writer, name) {
        Ok(writes) => writes,
        Err(_) => return Err(BookStop::Memory),
    };
    match perform_all(outlet, &writes) {
        Ok(()) => Ok(()),
        Err(_) => Err(BookStop::Failed),
    }
}

fn write_chapters<O: Outlet>(
    alloc: Global,
    files: &BookFiles,
    world: &World,
    names: &[Name],
    writer: &mut Writer,
    outlet: &mut O,
) -> Result<(), BookStop>
    requires named { IsNamedFor world.now files.now }
    requires plain { AllByRecursion (λ name. IsTrue (is_plain_chapter world.now name)) names.now }
    requires few { length names.now ≤ 1000 }
    requires start { writer.old ≡ progress_at_start }
    ensures ok { OnOk result (Adds (O.journal outlet.old) (O.journal outlet.new) (chapters_part world.now [] names.now)) }
    ensures after { OnOk result (writer.new ≡ progress (book_pages world.now [] names.now)) }
    ensures err { OnErr result (AddsPrefix (O.journal outlet.old) (O.journal outlet.new) (chapters_part world.now [] names.now)) }
    ensures later { O.faults outlet.old ≤ O.faults outlet.new }
    ensures failed { IsErrOf result BookStop.Failed → Rose (O.faults outlet.old) (O.faults outlet.new) }
{
    for name in names {
        write_chapter(alloc, files, world, name, writer, outlet)?;
    }
    Ok(())
}

/// Does what was made, where there was memory to make it.
fn perform_made<O: Outlet>(
    outlet: &mut O,
    writes: Result<Vec<Write>, NoMemory>,
) -> Result<(), BookStop>
    ensures ok { OnOk result (IsOkAnd writes (λ writes. Adds (O.journal outlet.old) (O.journal outlet.new) (flat_map entries_of writes.items))) }
    ensures err { OnErr result (MatchResult writes (λ writes. AddsPrefix (O.journal outlet.old) (O.journal outlet.new) (flat_map entries_of writes.items)) (λ _. O.journal outlet.new ≡ O.journal outlet.old)) }
    ensures later { O.faults outlet.old ≤ O.faults outlet.new }
    ensures failed { IsErrOf result BookStop.Failed → Rose (O.faults outlet.old) (O.faults outlet.new) }
{
    let Ok(writes) = writes else {
        return Err(BookStop::Memory);
    };
    match perform_all(outlet, &writes) {
        Ok(()) => Ok(()),
        Err(_) => Err(BookStop::Failed),
    }
}

fn write_start<O: Outlet>(
    alloc: Global,
    files: &BookFiles,
    world: &World,
    outlet: &mut O,
) -> Result<(), BookStop>
    requires named { IsNamedFor world.now files.now }
    ensures ok { OnOk result (Adds (O.journal outlet.old) (O.journal outlet.new) (book_start world.now)) }
    ensures err { OnErr result (AddsPrefix (O.journal outlet.old) (O.journal outlet.new) (book_start world.now)) }
    ensures later { O.faults outlet.old ≤ O.faults outlet.new }
    ensures failed { IsErrOf result BookStop.Failed → Rose (O.faults outlet.old) (O.faults outlet.new) }
{
    perform_made(outlet, start_writes(alloc, files, world))
}

fn write_end<O: Outlet>(
    alloc: Global,
    files: &BookFiles,
    world: &World,
    writer: Writer,
    outlet: &mut O,
) -> Result<(), BookStop>
    requires named { IsNamedFor world.now files.now }
    ensures ok { OnOk result (Adds (O.journal outlet.old) (O.journal outlet.new) (end_at world.now writer)) }
    ensures err { OnErr result (AddsPrefix (O.journal outlet.old) (O.journal outlet.new) (end_at world.now writer)) }
    ensures later { O.faults outlet.old ≤ O.faults outlet.new }
    ensures failed { IsErrOf result BookStop.Failed → Rose (O.faults outlet.old) (O.faults outlet.new) }
{
    perform_made(outlet, end_writes(alloc, files, world, writer))
}

/// Writes all of a book of these chapters.
pub fn write_book<O: Outlet>(
    alloc: Global,
    world: &World,
    names: &[Name],
    outlet: &mut O,
) -> Result<(), BookStop>
    requires plain { AllByRecursion (λ name. IsTrue (is_plain_chapter world.now name)) names.now }
    requires few { length names.now ≤ 1000 }
    ensures ok { OnOk result (Adds (O.journal outlet.old) (O.journal outlet.new) (book_journal world.now names.now)) }
    ensures err { OnErr result (AddsPrefix (O.journal outlet.old) (O.journal outlet.new) (book_journal world.now names.now)) }
    ensures later { O.faults outlet.old ≤ O.faults outlet.new }
    ensures failed { IsErrOf result BookStop.Failed → Rose (O.faults outlet.old) (O.faults outlet.new) }
{
    let Ok(files) = BookFiles::of(alloc, world) else {
        return Err(BookStop::Memory);
    };
    let mut writer = Writer::new(alloc);
    write_start(alloc, &files, world, outlet)?;
    write_chapters(alloc, &files, world, names, &mut writer, outlet)?;
    write_end(alloc, &files, world, writer, outlet)
}
