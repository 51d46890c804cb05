//! Glue, and sizes that are asked for. Lengths are in scaled points, 65536 to the point.

/// How strong stretch or shrink is. Of the orders that a list has, the highest one counts alone
/// (TeXbook, chapter 12).
#[derive(Clone, Copy, PartialEq, Eq)]
pub enum Order {
    Finite,
    Fil,
    Fill,
    Filll,
}

/// A space that can stretch and shrink.
#[derive(Clone, Copy)]
pub struct Glue {
    pub width: i32,
    pub stretch: i32,
    pub stretch_order: Order,
    pub shrink: i32,
    pub shrink_order: Order,
}

/// The size that a box is to have along its list: that of the list, a given one, or that of the
/// list and so much more.
#[derive(Clone, Copy)]
pub enum Target {
    Natural,
    To(i32),
    Spread(i32),
}

/// How the glue of a box is set: the size of the box along its list less the natural size of the
/// list, and the order of the stretch, or the shrink where that is below 0, which takes it up.
#[derive(Clone, Copy)]
pub struct GlueSet {
    pub excess: i32,
    pub order: Order,
}
