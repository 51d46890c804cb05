//! The pen of a page.
ghost use Rattle.lb_model_paper.specs.Dvi.{IsSmall};

use lb_base::FontId;

/// Where the reader of a page stands, in scaled points to the right of its corner and below it, and
/// its present font.
#[derive(Drop)]
pub struct Pen {
    pub h: i32,
    pub v: i32,
    pub font: Option<FontId>,
    ghost near: { IsSmall h × IsSmall v },
}
