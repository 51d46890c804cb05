//! Saves of cells, which a global change makes void.
ghost use Rattle.std.specs.Prelude.{◌≡◌, [], ◌∷◌, OnOk, OnErr, IsTrue, ◌↔◌, Some, map, MatchOption, is_some, true, min};
ghost use Rattle.lb_values.specs.Kept.{put, void_save};
ghost use Rattle.lb_maps.specs.CellMap.{at};
ghost use Rattle.lb_maps.specs.Marked.{mark_at, standing};

use crate::cell_map::CellMap;
use lb_base::NoMemory;
use lb_values::Cell;
use std::alloc::Global;
use std::marker::Model;

/// Saves, and for each cell that was changed globally its mark: the number of saves that stood at that change. A save is void where
/// its place, counted from the oldest one, is below its cell's mark.
#[derive(Drop)]
pub struct Saves<V> {
    items: Vec<(Cell, V)>,
    marks: CellMap<usize>,
}

impl<V> Model for Saves<V> {
    ghost use Rattle.std.specs.Prelude.{reverse};
    ghost use Rattle.lb_maps.specs.Marked.{Marked};

    ghost Value = { Marked V };

    ghost view = { λ s. record { items = reverse s.items.items; marks = s.marks } };
}

// The cell's mark, 0 where it has none.
fn mark_of(marks: &CellMap<usize>, cell: &Cell) -> usize
    ensures { result ≡ mark_at marks.now cell.now }
{
    match marks.get(cell) {
        Some(mark) => *mark,
        None => 0,
    }
}

// Brings the cell's mark down to the number of saves, which it is above where saves were undone since. Takes no memory.
fn lower_mark(marks: &mut CellMap<usize>, cell: &Cell, saves: usize)
    ensures { mark_at marks.new ≡ put cell.now (min (mark_at marks.old cell.now) saves) (mark_at marks.old) }
{
    if saves < mark_of(marks, cell) {
        marks.replace(cell, saves);
    }
}

impl<V> Saves<V> {
    /// No saves.
    pub fn new(alloc: Global) -> Saves<V>
        ensures { standing result ≡ [] }
    {
        Saves {
            items: Vec::new(alloc),
            marks: CellMap::new(alloc),
        }
    }

    /// Whether there is no save, not even a void one.
    pub fn is_empty(&self) -> bool
        ensures { IsTrue result ↔ (standing self.now ≡ []) }
    {
        self.items.is_empty()
    }
}

impl<V: Drop> Saves<V> {
    /// Saves what a cell holds.
    pub fn push(&mut self, cell: Cell, value: V) -> Result<(), NoMemory>
        ensures ok { OnOk result (standing self.new ≡ Some (cell, value) ∷ standing self.old) }
        ensures err { OnErr result (standing self.new ≡ standing self.old) }
    {
        lower_mark(&mut self.marks, &cell, self.items.len());
        self.items.push((cell, value))?;
        Ok(())
    }

    /// Takes the last save out, `None` where it is void. Takes no memory.
    pub fn pop(&mut self) -> Option<Option<(Cell, V)>>
        ensures { MatchOption result ((standing self.old ≡ []) × (standing self.new ≡ [])) (λ save. standing self.old ≡ save ∷ standing self.new) }
    {
        let (cell, value) = self.items.pop()?;
        if self.items.len() < mark_of(&self.marks, &cell) {
            return Some(None);
        }
        Some(Some((cell, value)))
    }

    /// Forgets all saves.
    pub fn clear(&mut self)
        ensures { standing self.new ≡ [] }
    {
        self.items.clear();
        self.marks.clear();
    }

    /// Gives the cell a mark where it has none. Saves stay as they are.
    pub fn make_mark(&mut self, cell: &Cell) -> Result<(), NoMemory>
        ensures same { standing self.new ≡ standing self.old }
        ensures there { OnOk result (is_some (at self.new.marks cell.now) ≡ true) }
    {
        self.marks.make_entry(cell, 0)
    }

    /// Makes the saves of a cell that has a mark void. It costs one hash, and takes no memory.
    pub fn void(&mut self, cell: &Cell)
        requires { is_some (at self.old.marks cell.now) ≡ true }
        ensures { standing self.new ≡ map (void_save cell.now) (standing self.old) }
    {
        self.marks.replace(cell, self.items.len());
    }
}
