//! The real outside: the disk as a folder and as an outlet, and the terminal as a printer. These forms
//! tell nothing of what they hold.
#![tactic(auto)]

pub mod folder;
pub mod outlet;
pub mod outside;
pub mod terminal;

pub use folder::DiskFolder;
pub use outlet::DiskOutlet;
pub use outside::Outside;
pub use terminal::TermSaid;
