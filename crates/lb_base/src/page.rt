//! The marks of a page, as a DVI file has them. Lengths are in scaled points, 65536 to the point.
use crate::listed::Listed;
use crate::name::Name;

/// A font at a size. `check` and `design` are its file's checksum and design size.
#[derive(Clone, Drop, PartialEq, Eq)]
pub struct FontId {
    pub name: Name,
    pub size: i32,
    pub check: u32,
    pub design: u32,
}

/// A character by the left end of its baseline, or a rule by its lower left corner.
#[derive(Clone, Drop, PartialEq, Eq)]
pub enum Mark {
    Char {
        h: i32,
        v: i32,
        font: FontId,
        code: u8,
        width: i32,
    },
    Rule {
        h: i32,
        v: i32,
        height: i32,
        width: i32,
    },
}

pub type MarkList = Listed<Mark>;

/// A page: its number, its marks in order, and its size.
#[derive(Clone, Drop, PartialEq, Eq)]
pub struct PageCode {
    pub number: i32,
    pub marks: MarkList,
    pub height: i32,
    pub width: i32,
}
