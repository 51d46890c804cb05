//! Entries of contents.
use lb_base::{Name, TokList};

/// An entry of a list of contents, as it is written to an aux file: its kind, as `chapter`, its title and its page (source2e, file ltsect). Title
/// and page are tokens that are not expanded.
#[derive(Drop)]
pub struct Entry3 {
    pub kind: Name,
    pub title: TokList,
    pub page: TokList,
}
