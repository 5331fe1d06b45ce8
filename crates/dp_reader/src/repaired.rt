//! The rows of chances of a text, repaired.
ghost use Rattle.std.specs.Prelude.{◌≤◌, ◌^◌, length};
ghost use Rattle.dp_meaning.specs.Rows.{repair_all};
ghost use Rattle.dp_tables.specs.Tables.{rows_of};
ghost use Rattle.dp_reader.specs.Repaired.{ReadsRows};

use crate::ModelFault;
use crate::fault::fault_at;
use dp_tables::{BoundedText, ChancesOf, given_chances, repair_chances};
use std::alloc::Global;

/// The cells of rows that sum to their scales, and how many of the rows were repaired.
#[derive(Drop)]
pub(crate) struct Repaired {
    pub cells: Vec<u64>,
    pub count: u32,
}

/// The rows of these chances.
pub(crate) fn repaired_rows(
    alloc: Global,
    bytes: &[u8],
    text: &BoundedText,
    of: ChancesOf,
) -> Result<Repaired, ModelFault>
    requires { length bytes.now ≤ 2 ^ 26 }
    ensures { ReadsRows bytes.now (repair_all text.now.end (rows_of text.now.text of)) result }
{
    let mut cells = given_chances(alloc, text, of)?;
    match repair_chances(&mut cells, text, of) {
        Ok(count) => Ok(Repaired { cells, count }),
        Err(fault) => Err(fault_at(bytes, fault)),
    }
}
