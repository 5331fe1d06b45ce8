//! Why a model was not made, or its text not written.
ghost use Rattle.std.specs.Prelude.{◌≡◌};
ghost use Rattle.dp_writer.specs.declared.fault.MakeFault.TheVariants.{Memory};

use dp_model::TooLarge;
use std::alloc::{AllocError, AllocFailed};
use thiserror::Error;

/// Why a model was not made, or its text not written.
#[derive(Clone, Copy, Debug, PartialEq, Eq, Error)]
pub enum MakeFault {
    /// The model or the text passes this limit.
    #[error("too large: {} {}", .0.what.word(), .0.count)]
    TooLarge(TooLarge),
    /// Memory ran out.
    #[error("memory ran out")]
    Memory,
}

impl From<AllocError> for MakeFault {
    ghost from_gives = { λ _ e. e ≡ Memory };

    fn from(_: AllocError) -> MakeFault {
        MakeFault::Memory
    }
}

impl<T: Drop> From<AllocFailed<T>> for MakeFault {
    ghost from_gives = { λ _ e. e ≡ Memory };

    fn from(_: AllocFailed<T>) -> MakeFault {
        MakeFault::Memory
    }
}

impl From<dp_base::Memory> for MakeFault {
    ghost from_gives = { λ _ e. e ≡ Memory };

    fn from(_: dp_base::Memory) -> MakeFault {
        MakeFault::Memory
    }
}
