//! Cells over a world and a guess.
ghost use Rattle.std.specs.Prelude.{◌≡◌, ◌<◌, ℕ, [], length, map, OnOk, OnErr, IfOk, None, Some, false, true, unwrap_or};
ghost use Rattle.std.specs.List.{IsDistinct};
ghost use Rattle.std.specs.Option.{option_copied};
ghost use Rattle.lb_values.specs.Cells.{cell_eq};
ghost use Rattle.lb_values.specs.declared.value.Value.{Value as Held};
ghost use Rattle.lb_model.specs.Ranges.{is_settable};
ghost use Rattle.lb_model.specs.Settings.{look};
ghost use Rattle.lb_maps.specs.CellMap.{at, held_now};
ghost use Rattle.lb_cells.specs.StateCells.{or_else, told_state};
ghost use Rattle.lb_record.specs.Recorded.{AgreesWith, meaning_over, notes_of, pairs_hold, reads_of, setting_of, told_more};
ghost use Rattle.lb_record.specs.Recording.{value_at};

use crate::known::{Known, UNKNOWN, known_of, mark_written};
use lb_base::{Listed, NoMemory};
use lb_cells::{State, Writes, tell};
use lb_maps::{CellMap, KeptMap};
use lb_model::{Cells, World};
use lb_values::{Cell, Reach, Value};
use std::alloc::Global;
use std::marker::Model;

/// Cells, each with what it told.
pub type Reads = Listed<(Cell, Value)>;

/// How many pairs there is room for before more memory is taken.
const PAIRS_AT_FIRST: usize = 256;

/// Reads and writes the cells of a world and a guess, and changes neither. A cell tells what was written here, where a write stands on it, and
/// else what it tells in the world and the guess, which is noted at its first telling, also where that is `Absent`.
#[derive(Drop)]
pub struct Recorder<'a> {
    world: &'a World,
    guess: &'a State,
    known: CellMap<Known>,
    reads: Reads,
    writes: KeptMap<Option<Value>>,
}

impl<'a> Model for Recorder<'a> {
    ghost use Rattle.std.specs.Coded.{codes};
    ghost use Rattle.std.specs.Prelude.{map};
    ghost use Rattle.lb_values.specs.contracts.value.Value as held;
    ghost use Rattle.lb_record.specs.Recorded.{Recorded};
    ghost use Rattle.lb_record.specs.Recording.{IsRecording, files_code};

    ghost Value = { Recorded };

    ghost coded = { Prim.hlevel (codes, held.the_row.coded, files_code) };

    ghost view = { λ r. record { world = r.world.now; guess = r.guess.now; told = map (λ e. e.0) r.reads; writes = r.writes } };

    ghost invariant = { λ r. IsRecording r.world.now r.guess.now r.known r.reads r.writes };
}

impl<'a> Recorder<'a> {
    /// A recorder over a world and a guess, in which nothing was told and nothing is written.
    pub fn over(alloc: Global, world: &'a World, guess: &'a State) -> Result<Recorder<'a>, NoMemory>
        ensures world { IfOk result (λ r. r.world ≡ world.now) }
        ensures guess { IfOk result (λ r. r.guess ≡ guess.now) }
        ensures told { IfOk result (λ r. r.told ≡ []) }
        ensures entries { IfOk result (λ r. r.writes.entries ≡ []) }
        ensures saves { IfOk result (λ r. r.writes.saves ≡ []) }
    {
        Ok(Recorder {
            world,
            guess,
            known: CellMap::new(alloc),
            reads: Reads::from_vec(Vec::with_capacity(alloc, PAIRS_AT_FIRST)?),
            writes: KeptMap::new(alloc),
        })
    }

    /// What was noted, in the order of first telling, and what was written. Takes no memory.
    pub fn finish(self) -> (Reads, Writes)
        ensures reads { result.0 ≡ reads_of self.entry }
        ensures once { IsDistinct cell_eq (map (λ e. e.0) result.0) }
        ensures writes { result.1 ≡ self.entry.writes.entries }
    {
        let Recorder {
            world: _,
            guess: _,
            known: _,
            reads,
            writes,
        } = self;
        (reads, writes.into_map())
    }

    // What the cell tells without a look at the guess: what is written on it, or else what was noted of it. Takes no memory.
    #[inline(always)]
    fn remembered(&self, cell: &Cell) -> Option<&Value>
        ensures value { option_copied result ≡ or_else (held_now None self.now.writes.entries cell.now) (at (reads_of self.now) cell.now) }
        ensures settable { (v : Held) → held_now None self.now.writes.entries cell.now ≡ Some v → is_settable cell.now v ≡ true }
    {
        let known = known_of(&self.known, cell);
        match standing(&self.writes, cell, known.written) {
            Some(value) => Some(value),
            None => value_at(self.reads.as_slice(), known.place),
        }
    }

    // Tells a cell of the world or the guess for the first time, and notes it.
    fn tell_first(&mut self, cell: &Cell) -> Result<Value, NoMemory>
        requires { at (reads_of self.old) cell.now ≡ None }
        ensures value { IfOk result (λ v. look self.old.world (told_state self.old.guess) cell.now ≡ v) }
        ensures ok { OnOk result (self.new ≡ told_more cell.now self.old) }
        ensures err { OnErr result (self.new ≡ self.old) }
    {
        let value = tell(self.world, cell, self.guess.stored(cell))?;
        self.note(cell, value.clone()?)?;
        Ok(value)
    }

    // Notes what a cell tells.
    fn note(&mut self, cell: &Cell, value: Value) -> Result<(), NoMemory>
        requires new { at (reads_of self.old) cell.now ≡ None }
        requires holds { look self.old.world (told_state self.old.guess) cell.now ≡ value }
        ensures ok { OnOk result (self.new ≡ told_more cell.now self.old) }
        ensures err { OnErr result (self.new ≡ self.old) }
    {
        let key = cell.clone()?;
        let written = known_of(&self.known, cell).written;
        let place = self.reads.len();
        self.known.make_entry(cell, UNKNOWN)?;
        self.reads.push((key, value))?;
        self.known.replace(
            cell,
            Known {
                place: Some(place),
                written,
            },
        );
        Ok(())
    }
}

impl<'a> Cells for Recorder<'a> {
    ghost agrees = { λ r p. AgreesWith (reads_of r) p };

    ghost meaning = { λ r p. meaning_over r p.state };

    ghost notes = { λ r. Some (notes_of r) };

    ghost made = { λ r. setting_of r.world r.guess };

    ghost made_agrees = { λ r. pairs_hold (setting_of r.world r.guess) r.told };

    ghost loan = { λ r. 0 };

    #[inline(always)]
    fn get(&mut self, cell: &Cell) -> Result<Value, NoMemory> {
        match self.remembered(cell) {
            Some(value) => Ok(copied(value)?),
            None => Ok(self.tell_first(cell)?),
        }
    }

    fn set(&mut self, cell: &Cell, value: Value, reach: Reach) -> Result<(), NoMemory> {
        mark_written(&mut self.known, cell)?;
        self.writes.change(cell, Some(value), reach)?;
        Ok(())
    }

    fn save(&mut self, cell: &Cell) -> Result<(), NoMemory> {
        let now = written(self.writes.get(cell))?;
        self.writes.save(cell, now, None)?;
        Ok(())
    }

    fn put_back(&mut self) {
        self.writes.put_back();
    }
}

// The write that stands on a cell, which is looked for where it may be written.
#[inline(always)]
fn standing<'w>(writes: &'w KeptMap<Option<Value>>, cell: &Cell, may_be: bool) -> Option<&'w Value>
    requires { may_be ≡ false → held_now None writes.now.entries cell.now ≡ None }
    ensures { option_copied result ≡ held_now None writes.now.entries cell.now }
{
    if !may_be {
        return None;
    }
    match writes.get(cell) {
        Some(Some(value)) => Some(value),
        _ => None,
    }
}

// The value of the pair at a place.
#[inline(always)]
fn value_at(reads: &[(Cell, Value)], place: Option<usize>) -> Option<&Value>
    requires { (n : ℕ) → place ≡ Some n → n < length reads.now }
    ensures { option_copied result ≡ value_at reads.now place }
{
    match place {
        Some(place) => Some(&reads[place].1),
        None => None,
    }
}

// A value once more. It is nearly always a category, which is copied here.
#[inline(always)]
fn copied(value: &Value) -> Result<Value, NoMemory>
    ensures { IfOk result (λ v. value.now ≡ v) }
{
    match value {
        Value::Category(category) => Ok(Value::Category(*category)),
        _ => Ok(value.clone()?),
    }
}

// What is written, which is nothing where there is no entry.
fn written(held: Option<&Option<Value>>) -> Result<Option<Value>, NoMemory>
    ensures { IfOk result (λ now. now ≡ unwrap_or (option_copied held.entry) None) }
{
    match held {
        Some(written) => written.clone(),
        None => Ok(None),
    }
}
