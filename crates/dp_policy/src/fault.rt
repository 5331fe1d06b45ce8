//! Why a text was not read as a policy.
ghost use Rattle.std.specs.Prelude.{◌≡◌};
ghost use Rattle.dp_policy.specs.declared.fault.PolicyFault.TheVariants.{Memory};

use dp_lines::FileWhy;
use dp_model::TooLarge;
use std::alloc::{AllocError, AllocFailed};
use thiserror::Error;

/// Why a text was not read as a policy.
#[derive(Clone, Copy, Debug, PartialEq, Eq, Error)]
pub enum PolicyFault {
    /// This line is the first that is not as required. Lines count from 1.
    #[error("line {line}: {why:?}")]
    At { line: u32, why: FileWhy },
    /// The text is as required up to its horizon line, and the horizon passes this limit of the model.
    #[error("too large: {} {}", .0.what.word(), .0.count)]
    TooLarge(TooLarge),
    /// Memory ran out.
    #[error("memory ran out")]
    Memory,
}

impl From<AllocError> for PolicyFault {
    ghost from_gives = { λ _ e. e ≡ Memory };

    fn from(_: AllocError) -> PolicyFault {
        PolicyFault::Memory
    }
}

impl<T: Drop> From<AllocFailed<T>> for PolicyFault {
    ghost from_gives = { λ _ e. e ≡ Memory };

    fn from(_: AllocFailed<T>) -> PolicyFault {
        PolicyFault::Memory
    }
}

impl From<dp_base::Memory> for PolicyFault {
    ghost from_gives = { λ _ e. e ≡ Memory };

    fn from(_: dp_base::Memory) -> PolicyFault {
        PolicyFault::Memory
    }
}
