//! The box of a page: its head, its body, its footnotes and its foot.
#![tactic(auto)]

mod building;
mod heights;
mod marks;
mod running;
mod whole;

pub use lb_model_paper::pages::{HeadFoot, PageLengths, PageLook, PagePart};
pub use marks::{PageMarks, page_marks};
pub use whole::page_box;
