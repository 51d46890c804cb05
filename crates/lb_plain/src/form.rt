//! The form of the books that are built.
ghost use Rattle.std.specs.Prelude.{◌≡◌, IfOk, nat_eq};
ghost use Rattle.std.specs.FinMap.{entries};
ghost use Rattle.std.specs.List.{list_all, list_any};
ghost use Rattle.lb_model_book.specs.PlainForm.{plain_names, tex_file, is_among, are_distinct, has_test_font, has_part, is_labelled, is_plain_chapter, is_plain_book, test_font};
ghost use Rattle.lb_plain.specs.Chapters.{ChaptersArePlain};
ghost use Rattle.lb_plain.specs.Parts.{are_good_names};
ghost use lib.Pointwise.{pointwise};

use crate::chapter::is_plain_text;
use crate::font::TEST_FONT;
use crate::main_file::names_of_main;
use lb_base::{Bytes, Name, NameList, NoMemory};
use lb_model::{FileMap, World};
use lb_values::Shared;
use std::alloc::Global;

const MOST_CHAPTERS: usize = 1000;

/// The chapters of a book in the built form, None where the form is broken.
pub fn plain_names(alloc: Global, world: &World) -> Result<Option<NameList>, NoMemory>
    ensures { IfOk result (λ names. names ≡ plain_names world.now) }
{
    let file = tex_file(alloc, &world.main)?;
    let Some(text) = world.files.get(&file) else {
        return Ok(None);
    };
    let Some(names) = names_of_main(alloc, text.as_slice())? else {
        return Ok(None);
    };
    if is_plain_book(alloc, world, names.as_slice())? {
        Ok(Some(names))
    } else {
        Ok(None)
    }
}

// Whether a book with these chapters has the built form.
fn is_plain_book(alloc: Global, world: &World, names: &[Name]) -> Result<bool, NoMemory>
    ensures { IfOk result (λ holds. holds ≡ is_plain_book world.now names.now) }
{
    if !are_good_names(&world.main, names) {
        return Ok(false);
    }
    if !has_test_font(alloc, world)? {
        return Ok(false);
    }
    if has_labels(&world.files) {
        return Ok(false);
    }
    are_plain_chapters(alloc, world, names)
}

// Whether chapters are few enough, and named apart from each other and from the main file.
fn are_good_names(main: &Name, names: &[Name]) -> bool
    ensures { result ≡ are_good_names main.now names.now }
{
    names.len() <= MOST_CHAPTERS && are_distinct(names) && !is_among(main, names)
}

// Whether each chapter has a file, and plain text in it.
fn are_plain_chapters(alloc: Global, world: &World, names: &[Name]) -> Result<bool, NoMemory>
    ensures { IfOk result (λ holds. holds ≡ list_all (is_plain_chapter world.now) names.now) }
{
    for name in names {
        if !is_plain_chapter(alloc, world, name)? {
            return Ok(false);
        }
    }
    Ok(true)
}

fn is_plain_chapter(alloc: Global, world: &World, name: &Name) -> Result<bool, NoMemory>
    ensures { IfOk result (λ holds. holds ≡ is_plain_chapter world.now name.now) }
{
    let file = tex_file(alloc, name)?;
    Ok(match world.files.get(&file) {
        Some(text) => is_plain_text(text.as_slice()),
        None => false,
    })
}

// The name of the file of a chapter or of a book.
fn tex_file(alloc: Global, name: &Name) -> Result<Name, NoMemory>
    ensures { IfOk result (λ file. file ≡ tex_file name.now) }
{
    name.with_ending(alloc, b".tex")
}

fn is_among(name: &Name, names: &[Name]) -> bool
    ensures { result ≡ is_among name.now names.now }
{
    names.iter().any(|other| name == other)
}

// Whether no name stands twice.
fn are_distinct(names: &[Name]) -> bool
    ensures { result ≡ are_distinct names.now }
{
    for (at, name) in names.iter().enumerate() {
        if is_among(name, &names[at + 1..]) {
            return false;
        }
    }
    true
}

// Whether an aux file has labels.
fn has_labels(files: &FileMap) -> bool
    ensures { result ≡ list_any is_labelled (entries files.now) }
{
    files.as_slice().iter().any(|file| is_labelled(file))
}

// Whether a file is an aux file of an earlier run that has labels.
fn is_labelled(file: &(Name, Shared<Bytes>)) -> bool
    ensures { result ≡ is_labelled file.now }
{
    file.0.as_slice().ends_with(b".aux") && has_part(b"\\newlabel", file.1.get().as_slice())
}

// Whether a part stands somewhere in a text.
fn has_part(part: &[u8], text: &[u8]) -> bool
    ensures { result ≡ has_part part.now text.now }
{
    for at in 0..text.len() {
        if text[at..].starts_with(part) {
            return true;
        }
    }
    false
}

// Whether the font's file is there, and is the test font.
fn has_test_font(alloc: Global, world: &World) -> Result<bool, NoMemory>
    ensures { IfOk result (λ has. has ≡ has_test_font world.now) }
{
    let file = Name::from_slice(alloc, b"cmr10.tfm")?;
    Ok(match world.files.get(&file) {
        Some(bytes) => is_test_font(bytes.as_slice()),
        None => false,
    })
}

fn is_test_font(bytes: &[u8]) -> bool
    ensures { result ≡ pointwise nat_eq bytes.now test_font }
{
    bytes == TEST_FONT.as_slice()
}

/// Where the form of a book holds, the file of each of its chapters is there and plain.
pub fn chapters_are_plain()
    ensures { ChaptersArePlain }
{}
