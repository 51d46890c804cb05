//! Internal quantities: registers, parameters, codes and the sizes of boxes, as cells tell them (TeXbook, chapter 24; tex.web, part 26).
#![tactic(auto)]

mod boxes;
mod codes;
mod found;
mod indexed;
mod meanings;
mod registers;

pub use found::Found;
pub use indexed::picked;
pub use meanings::internal;
