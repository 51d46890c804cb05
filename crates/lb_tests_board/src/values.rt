//! What is posted: for a chapter any number that is not below its own.
ghost use Rattle.std.specs.Prelude.{◌≤◌};

use lb_board::{Fits, Planned};

/// The one plan.
#[derive(Drop)]
pub(crate) struct FromOwn;

impl Planned for FromOwn {
    ghost plan = { record {} };
}

impl Fits<FromOwn> for u64 {
    ghost fits = { λ plan chapter value. chapter ≤ value };
}
