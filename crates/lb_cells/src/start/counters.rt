//! The counters at the start (source2e, file ltcounts; book.cls).
ghost use Rattle.std.specs.Prelude.{◌≡◌, ◌<◌, IfOk, OnOk, Some, length, map, slice_get};
ghost use Rattle.lb_values.specs.declared.cell.Cell.TheVariants as cell;
ghost use Rattle.lb_values.specs.declared.value.Value.TheVariants as value;
ghost use Rattle.lb_values.specs.Kept.{put};
ghost use Rattle.lb_model.specs.StartLists.{checkpoint_names, start_counters, start_resets};
ghost use Rattle.lb_maps.specs.CellMap.{at};
ghost use Rattle.lb_cells.specs.StartEntries.{checkpoint_over, counters_over, resets_over};

use lb_base::{Name, NameList, NoMemory};
use lb_maps::CellMap;
use lb_values::{Cell, Shared, Value};
use std::alloc::Global;

/// Gives each counter its number.
pub fn fill_counters(alloc: Global, entries: &mut CellMap<Value>) -> Result<(), NoMemory>
    ensures { OnOk result (at entries.new ≡ counters_over (at entries.old)) }
{
    let mut place = 19;
    while place > 0 {
        place -= 1;
        let (name, number) = counter(place);
        fill_counter(alloc, entries, name, number)?;
    }
    Ok(())
}

// Gives one counter its number.
fn fill_counter(
    alloc: Global,
    entries: &mut CellMap<Value>,
    name: &str,
    number: i32,
) -> Result<(), NoMemory>
    ensures { OnOk result (at entries.new ≡ put (cell.Counter name.now) (Some (value.Number number)) (at entries.old)) }
{
    let name = Name::from_slice(alloc, name.as_bytes())?;
    entries.insert(Cell::Counter(name), Value::Number(number))?;
    Ok(())
}

// A counter with its number, by its place, counted from 0.
fn counter(place: usize) -> (&'static str, i32)
    requires { place < 19 }
    ensures { slice_get start_counters place ≡ Some (result.0.now, result.1) }
{
    let rows = counters();
    rows[place]
}

// The counters with their numbers. The last two stand in no checkpoint.
fn counters() -> &'static [(&'static str, i32)]
    ensures rows { map (λ counter. (counter.0.now, counter.1)) result.now ≡ start_counters }
    ensures count { length result.now ≡ 19 }
{
    static COUNTERS: [(&str, i32); 19] = [
        ("page", 1),
        ("equation", 0),
        ("enumi", 0),
        ("enumii", 0),
        ("enumiii", 0),
        ("enumiv", 0),
        ("footnote", 0),
        ("mpfootnote", 0),
        ("part", 0),
        ("chapter", 0),
        ("section", 0),
        ("subsection", 0),
        ("subsubsection", 0),
        ("paragraph", 0),
        ("subparagraph", 0),
        ("figure", 0),
        ("table", 0),
        ("secnumdepth", 2),
        ("tocdepth", 2),
    ];
    &COUNTERS
}

/// Gives the list of a checkpoint's counters.
pub fn fill_checkpoint_names(alloc: Global, entries: &mut CellMap<Value>) -> Result<(), NoMemory>
    ensures { OnOk result (at entries.new ≡ checkpoint_over (at entries.old)) }
{
    let names = Shared::new(alloc, checkpoint_list(alloc)?)?;
    entries.insert(Cell::Counters, Value::Names(names))?;
    Ok(())
}

// The counters of a checkpoint, in its order.
fn checkpoint_list(alloc: Global) -> Result<NameList, NoMemory>
    ensures { IfOk result (λ names. names ≡ checkpoint_names) }
{
    let mut names = NameList::new(alloc);
    for place in 0..17 {
        names.push(Name::from_slice(alloc, counter(place).0.as_bytes())?)?;
    }
    Ok(names)
}

/// Gives each counter that has them the counters that a step of it resets.
pub fn fill_resets(alloc: Global, entries: &mut CellMap<Value>) -> Result<(), NoMemory>
    ensures { OnOk result (at entries.new ≡ resets_over (at entries.old)) }
{
    let mut place = 5;
    while place > 0 {
        place -= 1;
        let (name, within) = reset(place);
        fill_reset(alloc, entries, name, within)?;
    }
    Ok(())
}

// A counter and those that a step of it resets, by its place, counted from 0.
fn reset(place: usize) -> (&'static str, &'static [&'static str])
    requires { place < 5 }
    ensures { slice_get start_resets place ≡ Some (result.0.now, map (λ n. n.now) result.1.now) }
{
    let rows = resets();
    rows[place]
}

// The counters that reset others, with those.
fn resets() -> &'static [(&'static str, &'static [&'static str])]
    ensures rows { map (λ row. (row.0.now, map (λ n. n.now) row.1.now)) result.now ≡ start_resets }
    ensures count { length result.now ≡ 5 }
{
    static RESETS: [(&str, &[&str]); 5] = [
        (
            "chapter",
            &["section", "footnote", "equation", "figure", "table"],
        ),
        ("section", &["subsection"]),
        ("subsection", &["subsubsection"]),
        ("subsubsection", &["paragraph"]),
        ("paragraph", &["subparagraph"]),
    ];
    &RESETS
}

// Gives one counter those that a step of it resets.
fn fill_reset(
    alloc: Global,
    entries: &mut CellMap<Value>,
    name: &str,
    within: &[&str],
) -> Result<(), NoMemory>
    ensures { OnOk result (at entries.new ≡ put (cell.Resets name.now) (Some (value.Names (map (λ n. n.now) within.now))) (at entries.old)) }
{
    let name = Name::from_slice(alloc, name.as_bytes())?;
    let names = Shared::new(alloc, names_of(alloc, within)?)?;
    entries.insert(Cell::Resets(name), Value::Names(names))?;
    Ok(())
}

// The texts as names.
fn names_of(alloc: Global, texts: &[&str]) -> Result<NameList, NoMemory>
    ensures { IfOk result (λ names. names ≡ map (λ text. text.now) texts.now) }
{
    let mut names = NameList::new(alloc);
    for text in texts {
        names.push(Name::from_slice(alloc, text.as_bytes())?)?;
    }
    Ok(names)
}
