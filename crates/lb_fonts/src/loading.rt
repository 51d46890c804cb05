//! Fonts that are read from their files.
ghost use Rattle.std.specs.Prelude.{◌≡◌, ◌≤◌, ◌<ℤ◌, Some, pos, length, IfOk, IfErr, OnOk};
ghost use Rattle.std.specs.Option.{option_map};
ghost use Rattle.lb_values.specs.declared.cell.Cell.TheVariants.{Prefix};
ghost use Rattle.lb_model.specs.FontTable.{font_file};
ghost use Rattle.lb_model.specs.Settings.{Setting, noted};
ghost use Rattle.lb_model.specs.Told.{Told};
ghost use Rattle.lb_model_paper.specs.FoundFonts.{Found, font_found};
ghost use Rattle.lb_fonts.specs.Loads.{IfFault, IsRefused, file_of, font_in, noted_by_load};

use crate::name::FontName;
use lb_base::{Fault, Kind, Name, NoMemory, Stop};
use lb_model::{Cells, reads};
use lb_tfm::{Font, TfmStop, read};
use lb_values::Cell;
use std::alloc::Global;

/// The font of a name at its size, from its file, which is named by what stands before font files, the font's name and `.tfm`.
/// The size is above 0 and below 2048 points. Where there is no file, this is the fault `FontMissing`; and where a file breaks a rule
/// of the TFM format (tex.web, part 30), it is `BadTfm`, with the file's name and, for the line, the word that breaks it.
pub fn load<C: Cells>(alloc: Global, cells: &mut C, name: &FontName) -> Result<Font, Stop>
    requires low { pos 0 <ℤ name.now.size }
    requires high { name.now.size <ℤ pos 134217728 }
    requires short { length name.now.name ≤ 255 }
    ensures told { Told C.Cells cells.new cells.old }
    ensures font { IfOk result (λ font. (p : Setting) → C.agrees cells.new p → font_in p.world (C.meaning cells.old p).now name.now ≡ Found font) }
    ensures refused { IfErr result (λ stop. (p : Setting) → C.agrees cells.new p → IsRefused (font_in p.world (C.meaning cells.old p).now name.now) (file_of p.world (C.meaning cells.old p).now name.now) stop) }
    ensures notes { OnOk result ((p : Setting) → C.agrees cells.new p → C.notes cells.new ≡ option_map (noted_by_load p.world (C.meaning cells.old p).now name.now) (C.notes cells.old)) }
    ensures notes_on_fault { IfErr result (λ stop. IfFault stop ((p : Setting) → C.agrees cells.new p → C.notes cells.new ≡ option_map (noted_by_load p.world (C.meaning cells.old p).now name.now) (C.notes cells.old))) }
{
    let file = file_name(alloc, cells, name)?;
    let Some(bytes) = reads::text(cells, Cell::File(file.clone()?))? else {
        return Err(Stop::Fault(Kind::FontMissing));
    };
    font_from(alloc, bytes.get().as_slice(), name, file)
}

// The name of a font's file.
pub(crate) fn file_name<C: Cells>(
    alloc: Global,
    cells: &mut C,
    name: &FontName,
) -> Result<Name, NoMemory>
    ensures told { Told C.Cells cells.new cells.old }
    ensures value { IfOk result (λ file. (p : Setting) → C.agrees cells.new p → file_of p.world (C.meaning cells.old p).now name.now ≡ file) }
    ensures notes { OnOk result (C.notes cells.new ≡ option_map (noted Prefix) (C.notes cells.old)) }
{
    match reads::name(cells, Cell::Prefix)? {
        Some(prefix) => joined(alloc, prefix.as_slice(), name.name.as_slice()),
        None => joined(alloc, &[], name.name.as_slice()),
    }
}

fn joined(alloc: Global, prefix: &[u8], name: &[u8]) -> Result<Name, NoMemory>
    ensures { IfOk result (λ file. file ≡ font_file prefix.now name.now) }
{
    let mut file = Vec::from_slice(alloc, prefix)?;
    file.extend_from_slice(name)?;
    file.extend_from_slice(b".tfm")?;
    Name::from_slice(alloc, file.as_slice())
}

// The font of a file's bytes, under its name and at its size.
#[tactic(auto, unfolding(lb_model_paper::specs::FoundFonts::font_found))]
pub(crate) fn font_from(
    alloc: Global,
    bytes: &[u8],
    name: &FontName,
    file: Name,
) -> Result<Font, Stop>
    requires low { pos 0 <ℤ name.now.size }
    requires high { name.now.size <ℤ pos 134217728 }
    requires short { length name.now.name ≤ 255 }
    ensures font { IfOk result (λ font. font_found (Some bytes.now) name.now.name name.now.size ≡ Found font) }
    ensures refused { IfErr result (IsRefused (font_found (Some bytes.now) name.now.name name.now.size) file) }
{
    match read(alloc, bytes, name.size) {
        Ok(font) => Ok(font.named(name.name.clone()?)),
        Err(TfmStop::Memory) => Err(Stop::Memory),
        Err(TfmStop::Bad { word, .. }) => Err(Stop::At(Fault {
            kind: Kind::BadTfm,
            file,
            line: u64::from(word),
        })),
    }
}
