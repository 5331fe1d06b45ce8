//! Why a file was not read as a model.
ghost use Rattle.std.specs.Prelude.{◌≡◌, ◌≤◌, ◌^◌, length};
ghost use Rattle.dp_reader.specs.Reading.{fault_at};

use dp_base::Memory;
use dp_lexer::{LexFault, column_at, line_at};
use dp_meaning::{Fault, Why};
use dp_model::TooLarge;
use thiserror::Error;

/// Why a file was not read as a model.
#[derive(Debug, Drop, Error)]
pub enum ModelFault {
    /// What is wrong with the file, and where. Lines and columns count from 1, and columns count bytes.
    #[error("line {line}, column {column}: {why:?}")]
    At { line: u32, column: u32, why: Why },
    /// The first limit that the model passes.
    #[error("too large: {} {}", .0.what.word(), .0.count)]
    TooLarge(TooLarge),
    /// Memory ran out.
    #[error("memory ran out")]
    Memory,
}

/// The fault with its place.
pub(crate) fn fault_at(bytes: &[u8], fault: Fault) -> ModelFault
    requires { length bytes.now ≤ 2 ^ 26 }
    ensures { result ≡ fault_at bytes.now fault }
{
    ModelFault::At {
        line: line_at(bytes, fault.at),
        column: column_at(bytes, fault.at),
        why: fault.why,
    }
}

impl From<LexFault> for ModelFault {
    ghost use Rattle.std.specs.Prelude.{◌≡◌};
    ghost use Rattle.dp_reader.specs.Reading.{fault_of_lexer};

    ghost from_gives = { λ fault result. result ≡ fault_of_lexer fault };

    fn from(fault: LexFault) -> ModelFault {
        match fault {
            LexFault::BadByte { line, column } => ModelFault::At {
                line,
                column,
                why: Why::BadByte,
            },
            LexFault::Memory => ModelFault::Memory,
        }
    }
}

impl From<TooLarge> for ModelFault {
    ghost use Rattle.std.specs.Prelude.{◌≡◌};
    ghost use Rattle.dp_reader.specs.declared.fault.ModelFault.TheVariants as faults;

    ghost from_gives = { λ passed result. result ≡ faults.TooLarge passed };

    fn from(passed: TooLarge) -> ModelFault {
        ModelFault::TooLarge(passed)
    }
}

impl From<Memory> for ModelFault {
    ghost use Rattle.std.specs.Prelude.{◌≡◌};
    ghost use Rattle.dp_reader.specs.declared.fault.ModelFault.TheVariants as faults;

    ghost from_gives = { λ _ result. result ≡ faults.Memory };

    fn from(_: Memory) -> ModelFault {
        ModelFault::Memory
    }
}
