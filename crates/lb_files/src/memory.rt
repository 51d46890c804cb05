//! Forms of the outside that keep everything in memory. Those named `Mem` fail at the calls that
//! they are told to fail at, and where they find no memory. Those named `Sure` never fail.
pub mod calls;
pub mod folder;
pub mod outlet;
pub mod pool;
pub mod said;
pub mod sure_outlet;
