//! Commands on cells over the world and the state: `get CELL`; `set CHANGE`; `saved CELL ; CHANGE ; ..`, which saves a cell,
//! makes the changes, and undoes the save; `twice CELL ; CELL ; CHANGE ; ..`, which does so with two saves. A change is
//! `count N VALUE REACH`, `counter`, `dimen` or `cat` alike, `year VALUE REACH`, or `no-dimen N REACH`.
ghost use Rattle.std.specs.Prelude.{◌≡◌, OnOk, IfOk, length, true};
ghost use Rattle.lb_model.specs.Ranges.{is_of_state};
ghost use Rattle.lb_model.specs.Settings.{Setting};

use crate::keys::{cell, name};
use crate::numbers::{byte, number};
use crate::parts::{behind, part_end};
use crate::shown::{category_text, show_value};
use crate::stop::Stop;
use lb_base::{Category, Name};
use lb_cells::{Direct, State};
use lb_model::{Cells, World};
use lb_rows::Parameter;
use lb_values::{Cell, Reach, Value};
use std::alloc::Global;

/// Shows what comes of a command, or answers false if it is none of these.
pub fn show(
    alloc: Global,
    words: &[&str],
    world: &World,
    state: &mut State,
    out: &mut String,
) -> Result<bool, Stop> {
    let mut cells = Direct::over(world, state);
    match words.split_first() {
        Some((&"get", key)) => tell(alloc, &mut cells, key, out)?,
        Some((&"set", change)) => make_change(alloc, &mut cells, change)?,
        Some((&"saved", parts)) => {
            let end = part_end(parts, 0);
            let from = behind(parts, end);
            show_saved(alloc, &mut cells, &parts[..end], &parts[from..], out)?;
        }
        Some((&"twice", parts)) => {
            let end = part_end(parts, 0);
            let from = behind(parts, end);
            let end_of_other = part_end(parts, from);
            let one = &parts[..end];
            let other = &parts[from..end_of_other];
            let changes = &parts[behind(parts, end_of_other)..];
            show_twice(alloc, &mut cells, one, other, changes, out)?;
        }
        _ => return Ok(false),
    }
    Ok(true)
}

/// Shows what a cell tells.
fn tell<C: Cells>(alloc: Global, cells: &mut C, key: &[&str], out: &mut String) -> Result<(), Stop>
    ensures narrows { OnOk result ((p : Setting) → C.agrees cells.new p → C.agrees cells.old p) }
    ensures stays { OnOk result ((p : Setting) → C.agrees cells.new p → C.meaning cells.new p ≡ C.meaning cells.old p) }
{
    let value = cells.get(&cell(alloc, key)?)?;
    show_value(&value, out)
}

/// Saves a cell, makes the changes, and shows what the cell tells then, and again once the save is undone.
fn show_saved<C: Cells>(
    alloc: Global,
    cells: &mut C,
    key: &[&str],
    changes: &[&str],
    out: &mut String,
) -> Result<(), Stop> {
    let cell = state_cell(alloc, key)?;
    cells.save(&cell)?;
    make_changes(alloc, cells, changes)?;
    tell(alloc, cells, key, out)?;
    cells.put_back();
    tell(alloc, cells, key, out)
}

/// Saves two cells, makes the changes, and shows what both tell then, and as each save is undone.
fn show_twice<C: Cells>(
    alloc: Global,
    cells: &mut C,
    one: &[&str],
    other: &[&str],
    changes: &[&str],
    out: &mut String,
) -> Result<(), Stop> {
    let first = state_cell(alloc, one)?;
    let second = state_cell(alloc, other)?;
    cells.save(&first)?;
    cells.save(&second)?;
    make_changes(alloc, cells, changes)?;
    tell_both(alloc, cells, one, other, out)?;
    cells.put_back();
    tell_both(alloc, cells, one, other, out)?;
    cells.put_back();
    tell_both(alloc, cells, one, other, out)
}

fn tell_both<C: Cells>(
    alloc: Global,
    cells: &mut C,
    one: &[&str],
    other: &[&str],
    out: &mut String,
) -> Result<(), Stop>
    ensures narrows { OnOk result ((p : Setting) → C.agrees cells.new p → C.agrees cells.old p) }
    ensures stays { OnOk result ((p : Setting) → C.agrees cells.new p → C.meaning cells.new p ≡ C.meaning cells.old p) }
{
    tell(alloc, cells, one, out)?;
    tell(alloc, cells, other, out)
}

/// A cell of the state.
fn state_cell(alloc: Global, key: &[&str]) -> Result<Cell, Stop>
    ensures { IfOk result (λ cell. is_of_state cell ≡ true) }
{
    let cell = cell(alloc, key)?;
    match cell {
        Cell::Job | Cell::Prefix | Cell::Steps | Cell::File(_) => Err(Stop::Command),
        _ => Ok(cell),
    }
}

/// Makes the changes in order.
fn make_changes<C: Cells>(alloc: Global, cells: &mut C, parts: &[&str]) -> Result<(), Stop>
    ensures narrows { OnOk result ((p : Setting) → C.agrees cells.new p → C.agrees cells.old p) }
    ensures saves { OnOk result ((p : Setting) → C.agrees cells.new p → length (C.meaning cells.new p).saves ≡ length (C.meaning cells.old p).saves) }
{
    let mut from = 0;
    while from < parts.len() {
        let end = part_end(parts, from);
        if from < end {
            make_change(alloc, cells, &parts[from..end])?;
        }
        from = end.saturating_add(1);
    }
    Ok(())
}

/// Makes a change.
fn make_change<C: Cells>(alloc: Global, cells: &mut C, words: &[&str]) -> Result<(), Stop>
    ensures narrows { OnOk result ((p : Setting) → C.agrees cells.new p → C.agrees cells.old p) }
    ensures saves { OnOk result ((p : Setting) → C.agrees cells.new p → length (C.meaning cells.new p).saves ≡ length (C.meaning cells.old p).saves) }
{
    match *words {
        ["count", key, value, reach] => set_count(
            cells,
            byte(key)?,
            number(value)?,
            reach_of(reach)?,
        ),
        ["counter", key, value, reach] => set_counter(
            cells,
            name(alloc, key)?,
            number(value)?,
            reach_of(reach)?,
        ),
        ["year", value, reach] => set_year(cells, number(value)?, reach_of(reach)?),
        ["dimen", key, value, reach] => set_dimen(
            cells,
            byte(key)?,
            Some(number(value)?),
            reach_of(reach)?,
        ),
        ["no-dimen", key, reach] => set_dimen(cells, byte(key)?, None, reach_of(reach)?),
        ["cat", key, category, reach] => set_category(
            cells,
            byte(key)?,
            category_named(category)?,
            reach_of(reach)?,
        ),
        _ => Err(Stop::Command),
    }
}

/// Sets a count register.
fn set_count<C: Cells>(cells: &mut C, register: u8, value: i32, reach: Reach) -> Result<(), Stop>
    ensures narrows { OnOk result ((p : Setting) → C.agrees cells.new p → C.agrees cells.old p) }
    ensures saves { OnOk result ((p : Setting) → C.agrees cells.new p → length (C.meaning cells.new p).saves ≡ length (C.meaning cells.old p).saves) }
{
    if value == i32::MIN {
        return Err(Stop::Command);
    }
    cells.set(&Cell::Count(register), Value::Number(value), reach)?;
    Ok(())
}

/// Sets a counter.
fn set_counter<C: Cells>(cells: &mut C, name: Name, value: i32, reach: Reach) -> Result<(), Stop>
    ensures narrows { OnOk result ((p : Setting) → C.agrees cells.new p → C.agrees cells.old p) }
    ensures saves { OnOk result ((p : Setting) → C.agrees cells.new p → length (C.meaning cells.new p).saves ≡ length (C.meaning cells.old p).saves) }
{
    if value == i32::MIN {
        return Err(Stop::Command);
    }
    cells.set(&Cell::Counter(name), Value::Number(value), reach)?;
    Ok(())
}

/// Sets the year.
fn set_year<C: Cells>(cells: &mut C, value: i32, reach: Reach) -> Result<(), Stop>
    ensures narrows { OnOk result ((p : Setting) → C.agrees cells.new p → C.agrees cells.old p) }
    ensures saves { OnOk result ((p : Setting) → C.agrees cells.new p → length (C.meaning cells.new p).saves ≡ length (C.meaning cells.old p).saves) }
{
    if value == i32::MIN {
        return Err(Stop::Command);
    }
    cells.set(&Cell::Par(Parameter::Year), Value::Number(value), reach)?;
    Ok(())
}

/// Sets a dimension register, or takes its value away.
fn set_dimen<C: Cells>(
    cells: &mut C,
    register: u8,
    value: Option<i32>,
    reach: Reach,
) -> Result<(), Stop>
    ensures narrows { OnOk result ((p : Setting) → C.agrees cells.new p → C.agrees cells.old p) }
    ensures saves { OnOk result ((p : Setting) → C.agrees cells.new p → length (C.meaning cells.new p).saves ≡ length (C.meaning cells.old p).saves) }
{
    let cell = Cell::Dimen(register);
    let Some(value) = value else {
        cells.set(&cell, Value::Absent, reach)?;
        return Ok(());
    };
    if value <= -1_073_741_824 || value >= 1_073_741_824 {
        return Err(Stop::Command);
    }
    cells.set(&cell, Value::Dimen(value), reach)?;
    Ok(())
}

/// Sets the category of a code.
fn set_category<C: Cells>(
    cells: &mut C,
    code: u8,
    category: Category,
    reach: Reach,
) -> Result<(), Stop>
    ensures narrows { OnOk result ((p : Setting) → C.agrees cells.new p → C.agrees cells.old p) }
    ensures saves { OnOk result ((p : Setting) → C.agrees cells.new p → length (C.meaning cells.new p).saves ≡ length (C.meaning cells.old p).saves) }
{
    cells.set(&Cell::Cat(code), Value::Category(category), reach)?;
    Ok(())
}

fn reach_of(word: &str) -> Result<Reach, Stop> {
    match word {
        "local" => Ok(Reach::Local),
        "global" => Ok(Reach::Global),
        _ => Err(Stop::Command),
    }
}

fn category_named(word: &str) -> Result<Category, Stop> {
    const ALL: [Category; 16] = [
        Category::Escape,
        Category::BeginGroup,
        Category::EndGroup,
        Category::MathShift,
        Category::AlignmentTab,
        Category::EndOfLine,
        Category::Parameter,
        Category::Superscript,
        Category::Subscript,
        Category::Ignored,
        Category::Space,
        Category::Letter,
        Category::Other,
        Category::Active,
        Category::Comment,
        Category::Invalid,
    ];
    for category in ALL {
        if category_text(category) == word {
            return Ok(category);
        }
    }
    Err(Stop::Command)
}
