//! Arithmetic of registers and parameters (TeXbook, chapter 24).
use lb_base::Order;

/// `\advance`, `\multiply`, `\divide`.
#[derive(Clone, Copy, PartialEq, Eq)]
pub enum Arith {
    Advance,
    Multiply,
    Divide,
}

/// What glue stretches or shrinks by, in scaled points or in units of infinite glue, which may be out of range.
#[derive(Clone, Copy)]
pub struct Part {
    pub size: i64,
    pub order: Order,
}
