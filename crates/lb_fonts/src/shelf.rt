//! Fonts that were loaded, each kept for as long as the cells agree with the world that it was read from: always, since the cells of the
//! world are never set, and what was told stays told.
ghost use Rattle.std.specs.Prelude.{◌≡◌, ◌≤◌, ◌<ℤ◌, ◌∷◌, ◌++◌, [], pos, Some, length, true, IfOk, IfErr, IfSome, OnOk, OnErr};
ghost use Rattle.std.specs.Option.{option_map};
ghost use Rattle.lb_values.specs.declared.cell.Cell.TheVariants.{Prefix};
ghost use Rattle.lb_model.specs.FontTable.{font_name};
ghost use Rattle.lb_model.specs.Settings.{Setting, noted_all};
ghost use Rattle.lb_model.specs.Told.{Told};
ghost use Rattle.lb_model.specs.declared.world.World.{World};
ghost use Rattle.lb_model_paper.specs.FoundFonts.{Found};
ghost use Rattle.lb_fonts.specs.Loads.{IfFault, IsRefused};
ghost use Rattle.lb_fonts.specs.Shelves.{AreRight, IsRight, cells_by, file_by, found_by};

use crate::loading::{file_name, font_from};
use crate::name::FontName;
use crate::table::select;
use lb_base::{Kind, NoMemory, Stop};
use lb_model::{Cells, reads};
use lb_tfm::Font;
use lb_values::{Cell, Shared};
use std::alloc::Global;
use std::marker::Model;

/// The style of a font, from 0 to 5, and its size, from 0 to 9.
#[derive(Clone, Copy)]
pub struct FontKey {
    pub style: i32,
    pub size: i32,
}

/// A font that is kept, with its style and size and the cell of its file.
#[derive(Drop)]
struct Entry {
    key: FontKey,
    file: Cell,
    font: Shared<Font>,
}

impl Model for Entry {
    ghost use Rattle.lb_fonts.specs.Shelves.{Kept};

    ghost Value = { Kept };

    ghost view = { λ e. record { key = e.key; file = e.file; font = e.font } };
}

/// Fonts that were loaded.
#[derive(Drop)]
pub struct Shelf {
    fonts: Vec<Entry>,
}

impl Model for Shelf {
    ghost use Rattle.std.specs.Prelude.{List};
    ghost use Rattle.lb_fonts.specs.Shelves.{Kept};

    ghost Value = { List Kept };

    ghost view = { λ s. s.fonts.items };
}

impl Shelf {
    /// A shelf without fonts. Takes no memory.
    pub fn new(alloc: Global) -> Shelf
        ensures { result ≡ [] }
    {
        Shelf {
            fonts: Vec::new(alloc),
        }
    }

    // What is kept of this style and size.
    fn find(&self, key: &FontKey) -> Option<&Entry>
        ensures key { IfSome result (λ e. e.now.key ≡ key.now) }
        ensures right { IfSome result (λ e. (w : World) → AreRight w self.now → IsRight w e.now) }
    {
        for entry in &self.fonts {
            if entry.key.style == key.style && entry.key.size == key.size {
                return Some(entry);
            }
        }
        None
    }

    // Keeps a font.
    fn keep(&mut self, entry: Entry) -> Result<(), NoMemory>
        ensures ok { OnOk result (self.new ≡ self.old ++ entry ∷ []) }
        ensures err { OnErr result (self.new ≡ self.old) }
    {
        self.fonts.push(entry)?;
        Ok(())
    }
}

// Looks at the cells that tell a font that is kept.
fn look_at<C: Cells>(cells: &mut C, entry: &Entry) -> Result<(), NoMemory>
    ensures told { Told C.Cells cells.new cells.old }
    ensures notes { OnOk result (C.notes cells.new ≡ option_map (noted_all (Prefix ∷ entry.now.file ∷ [])) (C.notes cells.old)) }
{
    let _prefix = cells.get(&Cell::Prefix)?;
    let _text = cells.get(&entry.file)?;
    Ok(())
}

// Reads a font from its file, and tells the cell of the file.
fn read_new<C: Cells>(
    alloc: Global,
    cells: &mut C,
    key: &FontKey,
    name: &FontName,
) -> Result<(Cell, Font), Stop>
    requires named { font_name key.now.style key.now.size ≡ Some (name.now.name, name.now.size) }
    requires low { pos 0 <ℤ name.now.size }
    requires high { name.now.size <ℤ pos 134217728 }
    requires short { length name.now.name ≤ 255 }
    ensures told { Told C.Cells cells.new cells.old }
    ensures right { IfOk result (λ r. (p : Setting) → C.agrees cells.new p → IsRight p.world (record { key = key.now; file = r.0; font = r.1 })) }
    ensures refused { IfErr result (λ stop. (p : Setting) → C.agrees cells.new p → IsRefused (found_by p.world key.now) (file_by p.world key.now) stop) }
    ensures notes { OnOk result ((p : Setting) → C.agrees cells.new p → C.notes cells.new ≡ option_map (noted_all (cells_by p.world key.now)) (C.notes cells.old)) }
    ensures notes_on_fault { IfErr result (λ stop. IfFault stop ((p : Setting) → C.agrees cells.new p → C.notes cells.new ≡ option_map (noted_all (cells_by p.world key.now)) (C.notes cells.old))) }
{
    let file = file_name(alloc, cells, name)?;
    let cell = Cell::File(file.clone()?);
    let Some(bytes) = reads::text(cells, cell.clone()?)? else {
        return Err(Stop::Fault(Kind::FontMissing));
    };
    let font = font_from(alloc, bytes.get().as_slice(), name, file)?;
    Ok((cell, font))
}

// The font of a style and a size that is not kept yet.
fn choose_new<C: Cells>(
    alloc: Global,
    cells: &mut C,
    shelf: &mut Shelf,
    key: &FontKey,
) -> Result<Shared<Font>, Stop>
    requires right { (p : Setting) → C.agrees cells.old p → AreRight p.world shelf.old }
    ensures told { Told C.Cells cells.new cells.old }
    ensures font { IfOk result (λ font. (p : Setting) → C.agrees cells.new p → found_by p.world key.now ≡ Found font) }
    ensures refused { IfErr result (λ stop. (p : Setting) → C.agrees cells.new p → IsRefused (found_by p.world key.now) (file_by p.world key.now) stop) }
    ensures right { (p : Setting) → C.agrees cells.new p → AreRight p.world shelf.new }
    ensures notes { OnOk result ((p : Setting) → C.agrees cells.new p → C.notes cells.new ≡ option_map (noted_all (cells_by p.world key.now)) (C.notes cells.old)) }
    ensures notes_on_fault { IfErr result (λ stop. IfFault stop ((p : Setting) → C.agrees cells.new p → C.notes cells.new ≡ option_map (noted_all (cells_by p.world key.now)) (C.notes cells.old))) }
{
    // Each style and size that is asked for has a font.
    let Ok(name) = select(alloc, key.style, key.size) else {
        return Err(Stop::Memory);
    };
    let (file, font) = read_new(alloc, cells, key, &name)?;
    let font = Shared::new(alloc, font)?;
    let kept = Entry {
        key: *key,
        file,
        font: font.clone()?,
    };
    shelf.keep(kept)?;
    Ok(font)
}

/// The font of a style, from 0 to 5, and a size, from 0 to 9: a kept one, or else that of its file, which is kept then. The cells that tell
/// it are looked at in either case. Where there is no file, this is the fault `FontMissing`; and where the file breaks a rule of the TFM
/// format, it is `BadTfm`, with the file's name and the word that breaks it. A kept font takes no memory.
pub fn choose<C: Cells>(
    alloc: Global,
    cells: &mut C,
    shelf: &mut Shelf,
    key: &FontKey,
) -> Result<Shared<Font>, Stop>
    requires right { (p : Setting) → C.agrees cells.old p → AreRight p.world shelf.old }
    ensures told { Told C.Cells cells.new cells.old }
    ensures font { IfOk result (λ font. (p : Setting) → C.agrees cells.new p → found_by p.world key.now ≡ Found font) }
    ensures refused { IfErr result (λ stop. (p : Setting) → C.agrees cells.new p → IsRefused (found_by p.world key.now) (file_by p.world key.now) stop) }
    ensures right { (p : Setting) → C.agrees cells.new p → AreRight p.world shelf.new }
    ensures notes { OnOk result ((p : Setting) → C.agrees cells.new p → C.notes cells.new ≡ option_map (noted_all (cells_by p.world key.now)) (C.notes cells.old)) }
    ensures notes_on_fault { IfErr result (λ stop. IfFault stop ((p : Setting) → C.agrees cells.new p → C.notes cells.new ≡ option_map (noted_all (cells_by p.world key.now)) (C.notes cells.old))) }
{
    if let Some(entry) = shelf.find(key) {
        look_at(cells, entry)?;
        let font = entry.font.clone()?;
        return Ok(font);
    }
    choose_new(alloc, cells, shelf, key)
}
