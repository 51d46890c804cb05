//! A state: what its cells hold.
ghost use Rattle.std.specs.Prelude.{◌≡◌, IfOk, OnOk, OnErr, [], None, unwrap_or};
ghost use Rattle.std.specs.Option.{option_copied};
ghost use Rattle.lb_values.specs.Kept.{changed, saved, undone};
ghost use Rattle.lb_cells.specs.StateCells.{cells_of, present, state_of, stored_at, told_state};

use lb_base::NoMemory;
use lb_maps::{CellMap, KeptMap};
use lb_values::{Cell, Reach, Shared, Value};
use std::alloc::Global;
use std::marker::Model;
use std::snapshot::Snapshot;

/// What each cell holds, and the saves of a run that is under way: a map that many states may share, and what is written over it, where
/// `None` is no write. Contracts see what is stored, which may be `Absent` for a cell that has no value.
#[derive(Drop)]
pub struct State {
    base: Shared<CellMap<Value>>,
    pub(crate) over: KeptMap<Option<Value>>,
    begun: Snapshot<KeptMap<Option<Value>>>,
}

impl Model for State {
    ghost use Rattle.std.specs.Coded.{codes};
    ghost use Rattle.lb_values.specs.contracts.value.Value as held;
    ghost use Rattle.lb_cells.specs.StateCells.{StateCells};

    ghost Value = { StateCells };

    ghost coded = { Prim.hlevel (codes, held.the_row.coded) };

    ghost view = { λ s. record { base = s.base; over = s.over.entries; saves = s.over.saves; begun = s.begun.value.entries } };
}

impl State {
    /// A state in which no cell has a value.
    pub fn new(alloc: Global) -> Result<State, NoMemory>
        ensures state { IfOk result (λ s. told_state s ≡ state_of []) }
        ensures saves { IfOk result (λ s. s.saves ≡ []) }
    {
        State::from_map(alloc, CellMap::new(alloc))
    }

    /// The state that holds the map's values.
    pub fn from_map(alloc: Global, map: CellMap<Value>) -> Result<State, NoMemory>
        ensures state { IfOk result (λ s. told_state s ≡ state_of map) }
        ensures saves { IfOk result (λ s. s.saves ≡ []) }
    {
        Ok(State::over(alloc, Shared::new(alloc, map)?))
    }

    /// The state that holds the values of a map which others may share, with no write over it. Takes no memory.
    pub fn over(alloc: Global, base: Shared<CellMap<Value>>) -> State
        ensures base { result.base ≡ base }
        ensures over { result.over ≡ [] }
        ensures state { told_state result ≡ state_of base }
        ensures saves { result.saves ≡ [] }
    {
        let over = KeptMap::new(alloc);
        let begun = Snapshot::of(&over);
        State { base, over, begun }
    }

    /// The map below what is written. A clone of it takes no memory.
    pub fn base(&self) -> &Shared<CellMap<Value>>
        ensures { result.now ≡ self.now.base }
    {
        &self.base
    }

    /// What the cell holds, none where it has no value. Takes no memory.
    pub fn value(&self, cell: &Cell) -> Option<&Value>
        ensures { option_copied result ≡ present (told_state self.now cell.now) }
    {
        present_value(self.stored(cell)?)
    }

    /// What is stored for the cell, which may be `Absent`: what is written over the shared map, and else what that has. Takes no memory.
    #[inline(always)]
    pub fn stored(&self, cell: &Cell) -> Option<&Value>
        ensures { option_copied result ≡ stored_at self.now cell.now }
    {
        match self.over.get(cell) {
            Some(Some(value)) => Some(value),
            _ => self.base.get().get(cell),
        }
    }

    /// Forgets the saves of an earlier run, and remembers, for contracts alone, what the cells hold as a run begins. Takes no memory.
    pub fn begin(&mut self)
        ensures base { self.new.base ≡ self.old.base }
        ensures over { self.new.over ≡ self.old.over }
        ensures saves { self.new.saves ≡ [] }
        ensures begun { self.new.begun ≡ self.old.over }
    {
        self.over.forget();
        self.begun = Snapshot::of(&self.over);
    }

    /// Changes what the cell holds. A global change makes its saves void.
    pub fn change(&mut self, cell: &Cell, value: Value, reach: Reach) -> Result<(), NoMemory>
        ensures base { self.new.base ≡ self.old.base }
        ensures begun { self.new.begun ≡ self.old.begun }
        ensures ok { OnOk result (cells_of self.new ≡ changed reach cell.now value (cells_of self.old)) }
        ensures err { OnErr result (cells_of self.new ≡ cells_of self.old) }
    {
        self.over.change(cell, Some(value), reach)?;
        Ok(())
    }

    /// Saves what the cell holds, so that it can be put back without memory.
    pub fn save(&mut self, cell: &Cell) -> Result<(), NoMemory>
        ensures base { self.new.base ≡ self.old.base }
        ensures begun { self.new.begun ≡ self.old.begun }
        ensures ok { OnOk result (cells_of self.new ≡ saved cell.now (cells_of self.old)) }
        ensures err { OnErr result (cells_of self.new ≡ cells_of self.old) }
    {
        let now = written(self.over.get(cell))?;
        self.over.save(cell, now, None)
    }

    /// Undoes the last save. Takes no memory.
    pub fn put_back(&mut self)
        ensures base { self.new.base ≡ self.old.base }
        ensures begun { self.new.begun ≡ self.old.begun }
        ensures undone { cells_of self.new ≡ undone (cells_of self.old) }
    {
        self.over.put_back();
    }
}

// The value, unless it is the absent one.
fn present_value(value: &Value) -> Option<&Value>
    ensures { option_copied result ≡ present value.now }
{
    match value {
        Value::Absent => None,
        _ => Some(value),
    }
}

// What is written, which is nothing where there is no entry.
fn written(held: Option<&Option<Value>>) -> Result<Option<Value>, NoMemory>
    ensures { IfOk result (λ now. now ≡ unwrap_or (option_copied held.entry) None) }
{
    match held {
        Some(written) => written.clone(),
        None => Ok(None),
    }
}
