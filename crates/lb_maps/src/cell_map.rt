//! A map by cells.
ghost use Rattle.std.specs.Prelude.{◌≡◌, ◌<◌, ◌≤◌, ◌++◌, ◌∷◌, [], length, OnOk, OnErr, Some, None, IfSome, is_some, true, slice_get, MatchOption};
ghost use Rattle.std.specs.Map.Iter.{deref_pair};
ghost use Rattle.std.specs.Option.{option_copied};
ghost use Rattle.lb_values.specs.Kept.{put};
ghost use Rattle.lb_maps.specs.CellMap.{at, held_now, KeepsEntries};
ghost use Rattle.lb_maps.specs.Slots.{ArePlaced, filled, in_slot};

use crate::slots::{key_of_slot, slot_of};
use indexmap::IndexMap;
use lb_base::NoMemory;
use lb_values::Cell;
use std::alloc::Global;
use std::marker::Model;

/// A map by cells, seen as its entries. A cell whose key is a byte, and a parameter, is found by the number of its slot in a table, which
/// has no more slots than were ever needed; any other cell by its hash.
#[derive(Drop)]
pub struct CellMap<V> {
    slots: Vec<Option<(Cell, V)>>,
    map: IndexMap<Cell, V>,
}

impl<V> Model for CellMap<V> {
    ghost use Rattle.std.specs.Prelude.{◌++◌, List};
    ghost use Rattle.lb_values.specs.declared.cell.Cell.{Cell};
    ghost use Rattle.lb_maps.specs.CellMap.{at};
    ghost use Rattle.lb_maps.specs.Slots.{ArePlaced, HaveNoSlots, filled};

    ghost Value = { List (Cell × V) };

    ghost view = { λ m. filled m.slots.items ++ m.map.entries };

    ghost invariant = { λ m. ArePlaced 0 m.slots.items × HaveNoSlots (at m.map.entries) };
}

impl<V> CellMap<V> {
    /// A map without entries.
    pub fn new(alloc: Global) -> CellMap<V>
        ensures { result ≡ [] }
    {
        CellMap {
            slots: Vec::new(alloc),
            map: IndexMap::new(alloc),
        }
    }

    /// The value of a cell. Takes no memory.
    #[inline(always)]
    pub fn get(&self, cell: &Cell) -> Option<&V>
        ensures { option_copied result ≡ at self.now cell.now }
    {
        match slot_of(cell) {
            Some(slot) => held_in(self.slots.as_slice(), slot),
            None => self.map.get(cell),
        }
    }
}

impl<V: Drop> CellMap<V> {
    /// Gives the cell the value, in place of one that it has. Only a new cell takes memory.
    pub fn insert(&mut self, cell: Cell, value: V) -> Result<(), NoMemory>
        ensures after { OnOk result (at self.new ≡ put cell (Some value) (at self.old)) }
        ensures err { OnErr result (self.new ≡ self.old) }
        ensures absent { OnErr result (at self.old cell ≡ None) }
    {
        match slot_of(&cell) {
            Some(slot) => {
                make_slot(&mut self.slots, slot)?;
                self.slots[slot] = Some((cell, value));
            }
            None => {
                self.map.insert(cell, value)?;
            }
        }
        Ok(())
    }

    /// Gives a cell the value, in place of the one that it has. Takes no memory.
    pub fn overwrite(&mut self, cell: Cell, value: V)
        requires { is_some (at self.old cell) ≡ true }
        ensures { at self.new ≡ put cell (Some value) (at self.old) }
    {
        if let Err(_) = self.insert(cell, value) {
            unreachable!()
        }
    }

    /// Gives a cell the value as `overwrite` does, and needs no cell of its own.
    pub fn replace(&mut self, cell: &Cell, value: V)
        requires { is_some (at self.old cell.now) ≡ true }
        ensures { at self.new ≡ put cell.now (Some value) (at self.old) }
    {
        match key_of_slot(cell) {
            Some(key) => self.overwrite(key, value),
            None => rewrite(&mut self.map, cell, value),
        }
    }

    /// Takes the last entry out. Takes no memory.
    pub fn pop(&mut self) -> Option<(Cell, V)>
        ensures alone { IfSome result (λ entry. at self.new entry.0 ≡ None) }
        ensures last { MatchOption result ((self.old ≡ []) × (self.new ≡ [])) (λ entry. self.old ≡ self.new ++ entry ∷ []) }
    {
        match self.map.pop() {
            Some(entry) => Some(entry),
            None => pop_slot(&mut self.slots),
        }
    }

    /// Gives the cell an entry, `blank` where it has none.
    pub fn make_entry(&mut self, cell: &Cell, blank: V) -> Result<(), NoMemory>
        ensures same { held_now blank self.new ≡ held_now blank self.old }
        ensures keeps { KeepsEntries self.old self.new }
        ensures there { OnOk result (is_some (at self.new cell.now) ≡ true) }
    {
        if let None = self.get(cell) {
            let entry = cell.clone()?;
            self.insert(entry, blank)?;
        }
        Ok(())
    }

    /// Takes all entries out.
    pub fn clear(&mut self)
        ensures { self.new ≡ [] }
    {
        self.slots.clear();
        self.map.clear();
    }
}

impl<V: Drop> CellMap<Option<V>> {
    /// Gives each cell that has an entry in another map an entry, `None` where it has none.
    pub fn make_entries(&mut self, other: &CellMap<Option<V>>) -> Result<(), NoMemory>
        ensures same { held_now None self.new ≡ held_now None self.old }
        ensures keeps { KeepsEntries self.old self.new }
        ensures there { OnOk result (KeepsEntries other.now self.new) }
    {
        self.make_entries_of_slots(other.slots.as_slice())?;
        self.make_entries_of_map(&other.map)
    }

    fn make_entries_of_slots(&mut self, slots: &[Option<(Cell, Option<V>)>]) -> Result<(), NoMemory>
        ensures same { held_now None self.new ≡ held_now None self.old }
        ensures keeps { KeepsEntries self.old self.new }
        ensures there { OnOk result (KeepsEntries (filled slots.now) self.new) }
    {
        for place in 0..slots.len() {
            self.make_entry_of_slot(&slots[place])?;
        }
        Ok(())
    }

    fn make_entry_of_slot(&mut self, slot: &Option<(Cell, Option<V>)>) -> Result<(), NoMemory>
        ensures same { held_now None self.new ≡ held_now None self.old }
        ensures keeps { KeepsEntries self.old self.new }
        ensures there { OnOk result (IfSome slot.now (λ entry. is_some (at self.new entry.0) ≡ true)) }
    {
        match slot {
            Some(entry) => self.make_entry(&entry.0, None),
            None => Ok(()),
        }
    }

    fn make_entries_of_map(&mut self, map: &IndexMap<Cell, Option<V>>) -> Result<(), NoMemory>
        ensures same { held_now None self.new ≡ held_now None self.old }
        ensures keeps { KeepsEntries self.old self.new }
        ensures there { OnOk result (KeepsEntries map.now.entries self.new) }
    {
        for place in 0..map.len() {
            let (cell, _) = entry_of(map, place);
            self.make_entry(cell, None)?;
        }
        Ok(())
    }
}

// An entry of a map, by its place in the order of first insertion, counted from 0.
fn entry_of<V>(map: &IndexMap<Cell, V>, place: usize) -> (&Cell, &V)
    requires { place < length map.now.entries }
    ensures { slice_get map.now.entries place ≡ Some (deref_pair result) }
{
    match map.get_index(place) {
        Some(entry) => entry,
        None => unreachable!(),
    }
}

// Makes slots without entries until there is one of this number.
fn make_slot<V: Drop>(slots: &mut Vec<Option<(Cell, V)>>, slot: usize) -> Result<(), NoMemory>
    ensures same { filled slots.new.items ≡ filled slots.old.items }
    ensures placed { ArePlaced 0 slots.old.items → ArePlaced 0 slots.new.items }
    ensures held { in_slot slots.new.items ≡ in_slot slots.old.items }
    ensures there { OnOk result (slot < length slots.new.items) }
    ensures short { OnErr result (length slots.old.items ≤ slot) }
{
    while slots.len() <= slot {
        slots.push(None)?;
    }
    Ok(())
}

// What is held in a slot.
#[inline(always)]
fn held_in<V>(slots: &[Option<(Cell, V)>], slot: usize) -> Option<&V>
    ensures { option_copied result ≡ in_slot slots.now slot }
{
    if slot >= slots.len() {
        return None;
    }
    match &slots[slot] {
        Some(entry) => Some(&entry.1),
        None => None,
    }
}

// Gives a cell that has an entry the value.
fn rewrite<V: Drop>(map: &mut IndexMap<Cell, V>, cell: &Cell, value: V)
    requires { is_some (at map.old.entries cell.now) ≡ true }
    ensures { at map.new.entries ≡ put cell.now (Some value) (at map.old.entries) }
{
    match map.get_mut(cell) {
        Some(held) => *held = value,
        None => unreachable!(),
    }
}

// Takes the last entry of a table out.
fn pop_slot<V: Drop>(slots: &mut Vec<Option<(Cell, V)>>) -> Option<(Cell, V)>
    ensures entry { MatchOption result ((filled slots.old.items ≡ []) × (filled slots.new.items ≡ [])) (λ entry. filled slots.old.items ≡ filled slots.new.items ++ entry ∷ []) }
    ensures placed { ArePlaced 0 slots.old.items → ArePlaced 0 slots.new.items }
    ensures alone { IfSome result (λ entry. ArePlaced 0 slots.old.items → at (filled slots.new.items) entry.0 ≡ None) }
{
    while let Some(slot) = slots.pop() {
        if let Some(entry) = slot {
            return Some(entry);
        }
    }
    None
}
