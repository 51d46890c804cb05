//! What each kind of step tells the seat that makes it, and how views are split and joined. No value of these types is made.
ghost use Rattle.lb_board.specs.Steps.{called, drew, emptied, learned, posted, saw_halt, took};
ghost use Rattle.lb_board.specs.Views.{both, left_half, right_half, spent_view};

use crate::plan::{Fits, Planned};
use crate::view::View;
use atomic_table::{Join, Play, Split};

/// A load of the halt word.
pub struct LoadHalt;

impl<T, P> Play<Option<T>, View<P>> for LoadHalt {
    ghost then = { saw_halt };
}

/// An add to the draw word.
pub struct AddDraw;

impl<T, P> Play<Option<T>, View<P>> for AddDraw {
    ghost then = { drew };
}

/// A swap of a mark to posted.
pub struct SwapPosted;

impl<T, P> Play<Option<T>, View<P>> for SwapPosted {
    ghost then = { posted };
}

/// A compare and exchange of a mark from posted to taking.
pub struct ExchangePosted;

impl<T: Fits<P>, P: Planned> Play<Option<T>, View<P>> for ExchangePosted {
    ghost then = { took T.fits P.plan };
}

/// A swap of a mark to taken.
pub struct SwapTaken;

impl<T, P> Play<Option<T>, View<P>> for SwapTaken {
    ghost then = { emptied };
}

/// An or of the halt word.
pub struct OrHalt;

impl<T, P> Play<Option<T>, View<P>> for OrHalt {
    ghost then = { called };
}

/// A load behind a join.
pub struct LoadJoined;

impl<T, P> Play<Option<T>, View<P>> for LoadJoined {
    ghost then = { learned };
}

/// How a view is split.
pub struct Halves;

impl<P> Split<View<P>> for Halves {
    ghost left = { left_half };

    ghost right = { right_half };
}

/// How two views are joined.
pub struct Both;

impl<P: Planned> Join<View<P>> for Both {
    ghost both = { both };

    ghost spent = { spent_view P.plan };
}
