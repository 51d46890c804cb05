//! What a chapter writes.
ghost use Rattle.std.specs.Prelude.{◌≡◌, ◌+◌, ◌≤◌, ◌<◌, ◌++◌, IfOk, IfSome, OnOk, IsTrue};
ghost use Rattle.std.specs.Option.{ForSome};
ghost use Rattle.std.specs.List.{flat_map};
ghost use Rattle.lb_model_paper.specs.Dvi.{after_page, next_bytes};
ghost use Rattle.lb_model_book.specs.PlainForm.{is_plain_chapter};
ghost use Rattle.lb_run.specs.Names.{IsNamedFor, shipped_by, start_by};
ghost use Rattle.lb_run.specs.Writes.{entries_of};
ghost use Rattle.lb_run.specs.Parts.{page_at, progress_with, after_chapter, part_at, IsPlainPage, IsPlainFile};

use crate::names::{BookFiles, aux_file, tex_file};
use crate::texts;
use crate::writes::Write;
use lb_base::{Bytes, Name, NoMemory, PageCode};
use lb_dvi::{DviStop, Writer};
use lb_model::World;
use lb_plain::plain_page;
use std::alloc::{AllocError, Global};

/// The page of a chapter, None where no line of it has text.
fn chapter_page(
    alloc: Global,
    world: &World,
    writer: &Writer,
    name: &Name,
) -> Result<Option<PageCode>, NoMemory>
    requires plain { IsTrue (is_plain_chapter world.now name.now) }
    requires few { writer.now.pages < 1000 }
    ensures page { IfOk result (λ page. page ≡ page_at world.now writer.now name.now) }
    ensures plain { IfOk result (λ page. IfSome page IsPlainPage) }
{
    let file = tex_file(alloc, name)?;
    match world.files.get(&file) {
        Some(text) => plain_page(alloc, text.as_slice(), writer.pages() + 1),
        None => Ok(None),
    }
}

/// The bytes of a page. A page of plain words passes no limit of a DVI file.
fn page_bytes(alloc: Global, writer: &mut Writer, page: &PageCode) -> Result<Bytes, NoMemory>
    requires plain { IsPlainPage page.now }
    requires file { IsPlainFile writer.old }
    requires few { writer.old.pages < 1000 }
    ensures bytes { IfOk result (λ bytes. bytes ≡ next_bytes writer.old page.now) }
    ensures after { OnOk result (writer.new ≡ after_page writer.old page.now) }
    ensures file { OnOk result (IsPlainFile writer.new) }
{
    match writer.page(alloc, page) {
        Ok(bytes) => Ok(bytes),
        Err(DviStop::Memory) => Err(AllocError),
        Err(DviStop::PageLimit) => unreachable!(),
    }
}

/// Ships a page, where there is one: its bytes and its line in the log.
fn ship(
    alloc: Global,
    files: &BookFiles,
    writer: &mut Writer,
    page: Option<PageCode>,
    writes: &mut Vec<Write>,
) -> Result<(), NoMemory>
    requires plain { ForSome page IsPlainPage }
    requires file { IsPlainFile writer.old }
    requires few { writer.old.pages < 1000 }
    ensures written { OnOk result (flat_map entries_of writes.new.items ≡ flat_map entries_of writes.old.items ++ shipped_by files.now writer.old page) }
    ensures after { OnOk result (writer.new ≡ progress_with writer.old page) }
    ensures file { OnOk result (IsPlainFile writer.new) }
{
    let Some(page) = page else {
        return Ok(());
    };
    let bytes = page_bytes(alloc, writer, &page)?;
    let line = texts::log_page(alloc, writer.pages())?;
    writes.push(Write::Append(files.dvi.clone()?, bytes))?;
    writes.push(Write::Append(files.log.clone()?, line))?;
    Ok(())
}

/// What a chapter writes before its page.
fn chapter_start(alloc: Global, files: &BookFiles, name: &Name) -> Result<Vec<Write>, NoMemory>
    ensures { IfOk result (λ writes. flat_map entries_of writes.items ≡ start_by files.now name.now) }
{
    let aux = aux_file(alloc, name)?;
    let file = tex_file(alloc, name)?;
    let mut writes = Vec::new(alloc);
    writes.push(Write::Append(files.aux.clone()?, texts::input_line(alloc, name)?))?;
    writes.push(Write::Begin(aux.clone()?))?;
    writes.push(Write::Append(aux, texts::relax_line(alloc)?))?;
    writes.push(Write::Append(files.log.clone()?, texts::log_file(alloc, &file)?))?;
    Ok(writes)
}

/// All that a chapter writes.
pub fn chapter_writes(
    alloc: Global,
    files: &BookFiles,
    world: &World,
    writer: &mut Writer,
    name: &Name,
) -> Result<Vec<Write>, NoMemory>
    requires named { IsNamedFor world.now files.now }
    requires plain { IsTrue (is_plain_chapter world.now name.now) }
    requires file { IsPlainFile writer.old }
    requires few { writer.old.pages < 1000 }
    ensures part { IfOk result (λ writes. flat_map entries_of writes.items ≡ part_at world.now writer.old name.now) }
    ensures after { OnOk result (writer.new ≡ after_chapter world.now writer.old name.now) }
    ensures file { OnOk result (IsPlainFile writer.new) }
    ensures few { OnOk result (writer.new.pages ≤ writer.old.pages + 1) }
{
    let page = chapter_page(alloc, world, writer, name)?;
    let mut writes = chapter_start(alloc, files, name)?;
    ship(alloc, files, writer, page, &mut writes)?;
    let aux = aux_file(alloc, name)?;
    let checkpoint = texts::checkpoint(alloc, name, writer.pages() + 1)?;
    writes.push(Write::Append(aux, checkpoint))?;
    Ok(writes)
}
