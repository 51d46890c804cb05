//! What workers share and what mails hold goes from thread to thread.
use crate::recorder::Reads;
use lb_cells::{State, Writes};
use lb_model::World;
use lb_values::Value;

/// Takes only what may be shared by threads and sent to another.
fn crosses<T: Send + Sync>(_held: &T) {}

/// Worlds, values, states, reads and writes may be shared by threads and sent to another.
pub fn all_cross(world: &World, value: &Value, state: &State, reads: &Reads, writes: &Writes) {
    crosses(world);
    crosses(value);
    crosses(state);
    crosses(reads);
    crosses(writes);
}
