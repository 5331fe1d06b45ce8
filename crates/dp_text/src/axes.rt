//! The axes of a table, and how many numbers they have.
ghost use Rattle.std.specs.Prelude.{◌≡◌, ◌*◌, ◌<◌, ◌≤◌, ◌^◌, [], drop, length, map, min, slice_index_or};
ghost use Rattle.dp_spec.specs.JointNumbers.{product};
ghost use Rattle.dp_meaning.specs.declared.header.Header as types;
ghost use Rattle.dp_meaning.specs.Statements.{axes_of, axis_size};

use dp_meaning::{GivenList, Header, Table};
use std::slice;

/// How many axes a table has.
pub(crate) fn axis_count(table: Table) -> usize
    ensures is { (header : types.Header) → result ≡ length (axes_of header table) }
    ensures few { result ≤ 4 }
{
    match table {
        Table::Reward => 4,
        _ => 3,
    }
}

/// An axis of a table: the list of the states, or those of the agents' actions or observations.
pub(crate) fn axis_at(header: &Header, table: Table, place: usize) -> &[GivenList]
    requires { place < length (axes_of header.now table) }
    ensures { result.now ≡ slice_index_or (axes_of header.now table) place [] }
{
    match (place, table) {
        (0, _) => header.actions.as_slice(),
        (2, Table::Obs) | (3, _) => header.observations.as_slice(),
        _ => slice::from_ref(&header.states),
    }
}

/// A product of counts, but at most `most`.
fn times(a: u64, b: u64, most: u64) -> u64
    requires a { a ≤ most }
    requires b { b < 2 ^ 32 }
    requires most { most < 2 ^ 32 }
    ensures { result ≡ min (a * b) most }
{
    (a * b).min(most)
}

/// How many numbers an axis has, but at most `most`.
fn axis_size(axis: &[GivenList], most: u64) -> u64
    requires some { 0 < most }
    requires few { most < 2 ^ 32 }
    ensures { result ≡ min (axis_size axis.now) most }
{
    let mut size = 1;
    for list in axis {
        size = times(size, u64::from(list.size()), most);
    }
    size
}

/// How many numbers the axes of a table have from a place on, but at most `most`.
pub(crate) fn sizes_from(header: &Header, table: Table, first: usize, most: u64) -> u64
    requires some { 0 < most }
    requires few { most < 2 ^ 32 }
    ensures { result ≡ min (product (map axis_size (drop first (axes_of header.now table)))) most }
{
    let mut size = 1;
    for place in first..axis_count(table) {
        size = times(size, axis_size(axis_at(header, table, place), most), most);
    }
    size
}
