//! The rule of a board's table, whose key is the number of chapters.
ghost use Rattle.lb_board.specs.Rules.{Rules};
ghost use Rattle.lb_board.specs.Views.{first_view};

use crate::plan::{Fits, Planned};
use crate::view::View;
use atomic_table::TableRule;

/// The rule of a board.
pub struct BoardRule;

impl<T: Fits<P>, P: Planned> TableRule<Option<T>, View<P>, u32> for BoardRule {
    ghost holds = { λ n. Rules T.fits P.plan n };

    ghost first = { λ n. first_view P.plan };
}
