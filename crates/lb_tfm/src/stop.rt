//! Why a font is not read.
ghost use Rattle.std.specs.Prelude.{◌≡◌};

use std::alloc::{AllocError, AllocFailed};
use thiserror::Error;

/// There is not enough memory, or the file breaks a rule of the format: the first that it breaks,
/// from 1 to 9, and the number of the word that breaks it.
#[derive(Clone, Copy, Debug, PartialEq, Eq, Error)]
pub enum TfmStop {
    #[error("Memory")]
    Memory,
    #[error("Bad")]
    Bad { rule: u8, word: u32 },
}

impl From<AllocError> for TfmStop {
    ghost use Rattle.lb_tfm.specs.declared.stop.TfmStop.TheVariants.{Memory};

    ghost from_gives = { λ _ e. e ≡ Memory };

    fn from(_error: AllocError) -> TfmStop {
        TfmStop::Memory
    }
}

impl<T: Drop> From<AllocFailed<T>> for TfmStop {
    ghost use Rattle.lb_tfm.specs.declared.stop.TfmStop.TheVariants.{Memory};

    ghost from_gives = { λ _ e. e ≡ Memory };

    fn from(_error: AllocFailed<T>) -> TfmStop {
        TfmStop::Memory
    }
}
