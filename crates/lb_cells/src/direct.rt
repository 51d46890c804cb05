//! Cells over one world and one state.
ghost use Rattle.std.specs.Prelude.{◌≡◌, None, [], refl};
ghost use Rattle.lb_cells.specs.StateCells.{begun_state, cells_of};

use crate::state::State;
use crate::telling::tell;
use lb_base::NoMemory;
use lb_model::{Cells, World};
use lb_values::{Cell, Reach, Value};

/// Reads and writes the cells of one world and one state.
#[derive(Drop)]
pub struct Direct<'a> {
    world: &'a World,
    state: &'a mut State,
}

impl<'a> Direct<'a> {
    /// The cells of a world and of a state, which is written in place. Saves of an earlier run are forgotten. Takes no memory.
    pub fn over(world: &'a World, state: &'a mut State) -> Direct<'a>
        ensures world { result.world.now ≡ world.now }
        ensures base { result.state.now.base ≡ state.old.base }
        ensures over { result.state.now.over ≡ state.old.over }
        ensures saves { result.state.now.saves ≡ [] }
        ensures begun { result.state.now.begun ≡ state.old.over }
        ensures same_reference { result.state.ghost_name ≡ state.entry.ghost_name }
    {
        state.begin();
        Direct { world, state }
    }
}

impl<'a> Cells for Direct<'a> {
    ghost agrees = { λ d p. (p.world ≡ d.world.now) × (p.state ≡ begun_state d.state.now) };

    ghost meaning = { λ d p. cells_of d.state.now };

    ghost notes = { λ d. None };

    ghost made = { λ d. record { world = d.world.now; state = begun_state d.state.now } };

    ghost made_agrees = { λ d. (refl, refl) };

    ghost loan = { λ d. d.state.ghost_name };

    #[inline(always)]
    fn get(&mut self, cell: &Cell) -> Result<Value, NoMemory> {
        tell(self.world, cell, self.state.stored(cell))
    }

    fn set(&mut self, cell: &Cell, value: Value, reach: Reach) -> Result<(), NoMemory> {
        self.state.change(cell, value, reach)
    }

    fn save(&mut self, cell: &Cell) -> Result<(), NoMemory> {
        self.state.save(cell)
    }

    fn put_back(&mut self) {
        self.state.put_back();
    }
}
