//! Why a text was not read.
ghost use Rattle.std.specs.Prelude.{◌≡◌};

use dp_base::Memory;
use dp_meaning::{Fault, Why};
use std::alloc::{AllocError, AllocFailed};

/// Why a text was not read.
#[derive(Clone, Copy, Debug, PartialEq, Eq)]
pub enum TextFault {
    /// The first fault of the text.
    At(Fault),
    /// Memory ran out.
    Memory,
}

/// What is wrong at an offset.
pub(crate) fn fault(why: Why, at: u32) -> Fault
    ensures { result ≡ record { at = at; why = why } }
{
    Fault { at, why }
}

impl From<Fault> for TextFault {
    ghost use Rattle.std.specs.Prelude.{◌≡◌};
    ghost use Rattle.dp_text.specs.declared.fault.TextFault.TheVariants as faults;

    ghost from_gives = { λ fault result. result ≡ faults.At fault };

    fn from(fault: Fault) -> TextFault {
        TextFault::At(fault)
    }
}

impl From<Memory> for TextFault {
    ghost use Rattle.std.specs.Prelude.{◌≡◌};
    ghost use Rattle.dp_text.specs.declared.fault.TextFault.TheVariants as faults;

    ghost from_gives = { λ _ result. result ≡ faults.Memory };

    fn from(_: Memory) -> TextFault {
        TextFault::Memory
    }
}

impl From<AllocError> for TextFault {
    ghost use Rattle.std.specs.Prelude.{◌≡◌};
    ghost use Rattle.dp_text.specs.declared.fault.TextFault.TheVariants as faults;

    ghost from_gives = { λ _ result. result ≡ faults.Memory };

    fn from(_: AllocError) -> TextFault {
        TextFault::Memory
    }
}

impl<T: Drop> From<AllocFailed<T>> for TextFault {
    ghost use Rattle.std.specs.Prelude.{◌≡◌};
    ghost use Rattle.dp_text.specs.declared.fault.TextFault.TheVariants as faults;

    ghost from_gives = { λ _ result. result ≡ faults.Memory };

    fn from(_: AllocFailed<T>) -> TextFault {
        TextFault::Memory
    }
}
