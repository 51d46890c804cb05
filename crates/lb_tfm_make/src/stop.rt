//! Why a font is not made.
ghost use Rattle.std.specs.Prelude.{◌≡◌};

use std::alloc::{AllocError, AllocFailed};
use thiserror::Error;

/// There is not enough memory, or the description has over 255 distinct widths, a width of 0
/// counted too.
#[derive(Clone, Copy, Debug, PartialEq, Eq, Error)]
pub enum MakeStop {
    #[error("Memory")]
    Memory,
    #[error("TooManyWidths")]
    TooManyWidths,
}

impl From<AllocError> for MakeStop {
    ghost use Rattle.lb_tfm_make.specs.declared.stop.MakeStop.TheVariants.{Memory};

    ghost from_gives = { λ _ e. e ≡ Memory };

    fn from(_error: AllocError) -> MakeStop {
        MakeStop::Memory
    }
}

impl<T: Drop> From<AllocFailed<T>> for MakeStop {
    ghost use Rattle.lb_tfm_make.specs.declared.stop.MakeStop.TheVariants.{Memory};

    ghost from_gives = { λ _ e. e ≡ Memory };

    fn from(_error: AllocFailed<T>) -> MakeStop {
        MakeStop::Memory
    }
}
