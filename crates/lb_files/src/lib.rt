//! The outside as a run sees it: folders that are read, outlets that are written, and printers, with
//! their forms in memory.
#![tactic(auto)]

pub mod loading;
pub mod memory;
pub mod outside;

pub use loading::{LoadStop, Size, load};
pub use memory::folder::{MemFolder, SureFolder};
pub use memory::outlet::MemOutlet;
pub use memory::said::{MemSaid, SureSaid};
pub use memory::sure_outlet::SureOutlet;
pub use outside::{Failed, Folder, FolderStop, Outlet, Said};
