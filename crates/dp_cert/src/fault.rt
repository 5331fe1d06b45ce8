use dp_lines::FileWhy;
use dp_model::TooLarge;
use std::alloc::{AllocError, AllocFailed};
use thiserror::Error;

/// Why bytes were not read as the text of a certificate.
#[derive(Debug, Drop, Error)]
pub enum CertFault {
    /// The first line that is not as required, and why. Lines count from 1; a line that is missing has the
    /// number that it would have.
    #[error("line {line}: {why:?}")]
    At { line: u32, why: FileWhy },
    /// The text is as required up to here, and passes a limit.
    #[error("too large: {} {}", .0.what.word(), .0.count)]
    TooLarge(TooLarge),
    /// Memory ran out.
    #[error("memory ran out")]
    Memory,
}

impl From<AllocError> for CertFault {
    ghost use Rattle.std.specs.Prelude.{◌≡◌};
    ghost use Rattle.dp_cert.specs.declared.fault.CertFault.TheVariants as faults;

    ghost from_gives = { λ _ e. e ≡ faults.Memory };

    fn from(_: AllocError) -> CertFault {
        CertFault::Memory
    }
}

impl<T: Drop> From<AllocFailed<T>> for CertFault {
    ghost use Rattle.std.specs.Prelude.{◌≡◌};
    ghost use Rattle.dp_cert.specs.declared.fault.CertFault.TheVariants as faults;

    ghost from_gives = { λ _ e. e ≡ faults.Memory };

    fn from(_: AllocFailed<T>) -> CertFault {
        CertFault::Memory
    }
}
