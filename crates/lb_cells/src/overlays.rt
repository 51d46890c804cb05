//! Writes, and how they are laid over a state.
ghost use Rattle.std.specs.Prelude.{◌≡◌, None, OnOk, OnErr, is_some, true};
ghost use Rattle.lb_model.specs.Settings.{laid_over};
ghost use Rattle.lb_maps.specs.CellMap.{at, held_now, KeepsEntries};
ghost use Rattle.lb_cells.specs.StateCells.{put_write, told_state, written_over};

use crate::state::State;
use lb_base::NoMemory;
use lb_maps::{CellMap, KeptMap};
use lb_values::{Cell, Value};

/// Values of cells that are to be laid over a state. An `Absent` one takes the cell's value away, and `None` is no write.
pub type Writes = CellMap<Option<Value>>;

/// Lays all the writes over the state, or none where memory is short. Saves stay.
pub fn overlay(state: &mut State, writes: Writes) -> Result<(), NoMemory>
    ensures ok { OnOk result (told_state state.new ≡ laid_over (held_now None writes) (told_state state.old)) }
    ensures err { OnErr result (told_state state.new ≡ told_state state.old) }
    ensures base { state.new.base ≡ state.old.base }
    ensures saves { state.new.saves ≡ state.old.saves }
    ensures begun { state.new.begun ≡ state.old.begun }
{
    state.over.make_entries(&writes)?;
    overwrite_all(&mut state.over, writes);
    Ok(())
}

// Writes into entries that are there, which takes no memory.
fn overwrite_all(over: &mut KeptMap<Option<Value>>, mut writes: Writes)
    requires { KeepsEntries writes over.old.entries }
    ensures now { held_now None over.new.entries ≡ written_over (held_now None writes) (held_now None over.old.entries) }
    ensures saves { over.new.saves ≡ over.old.saves }
{
    while let Some((cell, write)) = writes.pop() {
        write_one(over, cell, write);
    }
}

// Writes into an entry that is there. `None` is no write.
fn write_one(over: &mut KeptMap<Option<Value>>, cell: Cell, write: Option<Value>)
    requires { is_some (at over.old.entries cell) ≡ true }
    ensures now { held_now None over.new.entries ≡ put_write cell write (held_now None over.old.entries) }
    ensures keeps { KeepsEntries over.old.entries over.new.entries }
    ensures saves { over.new.saves ≡ over.old.saves }
{
    if let Some(value) = write {
        over.overwrite(cell, Some(value));
    }
}
