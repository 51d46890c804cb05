//! Runs of the typesetter, from the words of a command to the bytes of its files.
#![tactic(auto)]

mod book;
mod chapter;
mod names;
mod setting;
pub mod status;
mod texts;
mod words;
mod writes;

pub use lb_files::{Failed, Folder, FolderStop, Outlet, Said, Size};
pub use setting::run;
pub use status::Status;
