//! States and writes go from thread to thread: workers share a state, and mail what they wrote.
use crate::overlays::Writes;
use crate::state::State;

/// Takes only what may be shared by threads and sent to another.
fn crosses<T: Send + Sync>(_held: &T) {}

/// A state may be shared by threads and sent to another.
pub fn state_crosses(state: &State) {
    crosses(state);
}

/// So may writes.
pub fn writes_cross(writes: &Writes) {
    crosses(writes);
}
