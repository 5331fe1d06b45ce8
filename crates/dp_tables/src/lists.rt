//! A table by all lists of its axes, one after the other.
ghost use Rattle.std.specs.Prelude.{◌≡◌, ◌++◌, drop, map, IfOk, OnOk};
ghost use Rattle.dp_meaning.specs.NameLists.{size_of};
ghost use Rattle.dp_meaning.specs.Statements.{axes_of};
ghost use Rattle.dp_tables.specs.Writing as spec;

use dp_base::Memory;
use dp_meaning::{GivenList, Header, Part, Table};
use dp_model::Sequence;
use std::alloc::Global;

/// The sizes of the lists of a table's axes: the agents' actions, the states, and the next states,
/// the agents' observations, or both.
pub(crate) fn list_sizes(alloc: Global, header: &Header, table: Table) -> Result<Vec<u32>, Memory>
    ensures { IfOk result (λ sizes. sizes.items ≡ spec.list_sizes (axes_of header.now table)) }
{
    let mut sizes = Vec::new(alloc);
    push_sizes(&mut sizes, header.actions.as_slice())?;
    sizes.push(header.states.size())?;
    push_results(&mut sizes, header, table)?;
    Ok(sizes)
}

/// Appends the sizes of the lists of the axes behind the joint action and the state.
fn push_results(sizes: &mut Vec<u32>, header: &Header, table: Table) -> Result<(), Memory>
    ensures { OnOk result
        (sizes.new.items ≡ sizes.old.items ++ spec.list_sizes (drop 2 (axes_of header.now table))) }
{
    match table {
        Table::Trans => sizes.push(header.states.size())?,
        Table::Obs => push_sizes(sizes, header.observations.as_slice())?,
        Table::Reward => {
            sizes.push(header.states.size())?;
            push_sizes(sizes, header.observations.as_slice())?;
        }
    }
    Ok(())
}

/// Appends the sizes of these lists.
fn push_sizes(sizes: &mut Vec<u32>, lists: &[GivenList]) -> Result<(), Memory>
    ensures { OnOk result (sizes.new.items ≡ sizes.old.items ++ map size_of lists.now) }
{
    for list in lists {
        sizes.push(list.size())?;
    }
    Ok(())
}

/// The parts of all fields, which stand for the first of the lists.
pub(crate) fn list_parts(alloc: Global, fields: &[Sequence<Part>]) -> Result<Vec<Part>, Memory>
    ensures { IfOk result (λ parts. parts.items ≡ spec.list_parts fields.now) }
{
    let mut parts = Vec::new(alloc);
    for field in fields {
        parts.extend_from_slice(field.as_slice())?;
    }
    Ok(parts)
}
