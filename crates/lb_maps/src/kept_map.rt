//! A map by cells with saves that can be put back without memory.
ghost use Rattle.std.specs.Prelude.{◌≡◌, OnOk, OnErr, Some, None, [], is_some, true};
ghost use Rattle.std.specs.Option.{option_copied};
ghost use Rattle.lb_values.specs.Kept.{changed, put, saved, undone};
ghost use Rattle.lb_maps.specs.CellMap.{at, kept, held_now, KeepsEntries};

use crate::cell_map::CellMap;
use crate::saves::Saves;
use lb_base::NoMemory;
use lb_values::{Cell, Reach};
use std::alloc::Global;
use std::marker::Model;

/// What each cell holds, and the saves that stand.
#[derive(Drop)]
pub struct KeptMap<V> {
    map: CellMap<V>,
    saves: Saves<V>,
}

impl<V> Model for KeptMap<V> {
    ghost use Rattle.lb_maps.specs.CellMap.{Held, AllSaved};
    ghost use Rattle.lb_maps.specs.Marked.{standing};

    ghost Value = { Held V };

    ghost view = { λ k. record { entries = k.map; saves = standing k.saves } };

    ghost invariant = { λ k. AllSaved k.map (standing k.saves) };
}

impl<V> KeptMap<V> {
    /// A map without entries and saves.
    pub fn new(alloc: Global) -> KeptMap<V>
        ensures entries { result.entries ≡ [] }
        ensures saves { result.saves ≡ [] }
    {
        KeptMap::from_map(alloc, CellMap::new(alloc))
    }

    /// The map without saves. Takes no memory.
    pub fn from_map(alloc: Global, map: CellMap<V>) -> KeptMap<V>
        ensures entries { result.entries ≡ map }
        ensures saves { result.saves ≡ [] }
    {
        KeptMap {
            map,
            saves: Saves::new(alloc),
        }
    }

    /// What is stored for the cell. Takes no memory.
    #[inline(always)]
    pub fn get(&self, cell: &Cell) -> Option<&V>
        ensures { option_copied result ≡ at self.now.entries cell.now }
    {
        self.map.get(cell)
    }
}

impl<V: Drop> KeptMap<V> {
    /// The map alone. The saves go.
    pub fn into_map(self) -> CellMap<V>
        ensures { result ≡ self.entries }
    {
        let KeptMap { map, saves: _ } = self;
        map
    }

    /// Changes what the cell holds. A global change makes its saves void.
    pub fn change(&mut self, cell: &Cell, value: V, reach: Reach) -> Result<(), NoMemory>
        ensures ok { OnOk result ((blank : V) → kept blank self.new ≡ changed reach cell.now value (kept blank self.old)) }
        ensures err { OnErr result (self.new ≡ self.old) }
    {
        match reach {
            Reach::Local => self.change_locally(cell, value),
            Reach::Global => self.change_globally(cell, value),
        }
    }

    // Changes what the cell holds. Its saves stay.
    fn change_locally(&mut self, cell: &Cell, value: V) -> Result<(), NoMemory>
        ensures ok { OnOk result ((blank : V) → kept blank self.new ≡ changed Reach.Local cell.now value (kept blank self.old)) }
        ensures err { OnErr result (self.new ≡ self.old) }
    {
        let key = cell.clone()?;
        self.map.insert(key, value)?;
        Ok(())
    }

    // Changes what the cell holds, and makes its saves void. What takes memory comes first, so that nothing changes where it is short.
    fn change_globally(&mut self, cell: &Cell, value: V) -> Result<(), NoMemory>
        ensures ok { OnOk result ((blank : V) → kept blank self.new ≡ changed Reach.Global cell.now value (kept blank self.old)) }
        ensures err { OnErr result (self.new ≡ self.old) }
    {
        if self.saves.is_empty() {
            return self.change_locally(cell, value);
        }
        let key = cell.clone()?;
        self.saves.make_mark(cell)?;
        self.map.insert(key, value)?;
        self.saves.void(cell);
        Ok(())
    }

    /// Saves what the cell holds, `now`, which is `blank` where it has no entry.
    pub fn save(&mut self, cell: &Cell, now: V, blank: V) -> Result<(), NoMemory>
        requires { now ≡ held_now blank self.old.entries cell.now }
        ensures ok { OnOk result (kept blank self.new ≡ saved cell.now (kept blank self.old)) }
        ensures err { OnErr result (kept blank self.new ≡ kept blank self.old) }
    {
        let key = cell.clone()?;
        self.map.make_entry(&key, blank)?;
        self.saves.push(key, now)?;
        Ok(())
    }

    /// Gives the cell an entry, `blank` where it has none.
    pub fn make_entry(&mut self, cell: &Cell, blank: V) -> Result<(), NoMemory>
        ensures same { kept blank self.new ≡ kept blank self.old }
        ensures keeps { KeepsEntries self.old.entries self.new.entries }
        ensures there { OnOk result (is_some (at self.new.entries cell.now) ≡ true) }
    {
        self.map.make_entry(cell, blank)?;
        Ok(())
    }

    /// Puts the value in the place of the one in the cell's entry. Saves stay. Takes no memory.
    pub fn overwrite(&mut self, cell: Cell, value: V)
        requires { is_some (at self.old.entries cell) ≡ true }
        ensures entries { at self.new.entries ≡ put cell (Some value) (at self.old.entries) }
        ensures saves { self.new.saves ≡ self.old.saves }
    {
        self.map.overwrite(cell, value);
    }

    /// Forgets the saves. Takes no memory.
    pub fn forget(&mut self)
        ensures { self.new ≡ record self.old { saves = [] } }
    {
        self.saves.clear();
    }

    /// Undoes the last save. Takes no memory, since its cell has an entry.
    pub fn put_back(&mut self)
        ensures { (blank : V) → kept blank self.new ≡ undone (kept blank self.old) }
    {
        if let Some(Some((cell, value))) = self.saves.pop() {
            self.map.overwrite(cell, value);
        }
    }
}

impl<V: Drop> KeptMap<Option<V>> {
    /// Gives each cell that has an entry in another map an entry, `None` where it has none. Saves stay.
    pub fn make_entries(&mut self, other: &CellMap<Option<V>>) -> Result<(), NoMemory>
        ensures same { kept None self.new ≡ kept None self.old }
        ensures there { OnOk result (KeepsEntries other.now self.new.entries) }
    {
        self.map.make_entries(other)?;
        Ok(())
    }
}
