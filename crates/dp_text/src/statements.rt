//! The statements of a text.
ghost use Rattle.std.specs.Prelude.{◌≡◌, drop};
ghost use Rattle.dp_meaning.specs.Header as header_spec;
ghost use Rattle.dp_meaning.specs.Statements as spec;
ghost use Rattle.dp_text.specs.Reading.{Reads};

use crate::fault::{TextFault, fault};
use crate::header::kind_of;
use crate::parts::line_fields;
use crate::values::value_of;
use dp_items::{Document, Item};
use dp_meaning::{Header, ItemKind, Statement, Table, Why};
use dp_model::Sequence;
use std::alloc::Global;

/// How many fields a statement has at least.
fn least_fields(table: Table) -> usize
    ensures { result ≡ spec.least_fields table }
{
    match table {
        Table::Reward => 2,
        _ => 1,
    }
}

/// A statement of a table.
fn statement(
    alloc: Global,
    header: &Header,
    table: Table,
    item: &Item,
) -> Result<Statement, TextFault>
    ensures { Reads (spec.statement header.now table item.now) result }
{
    let line = line_fields(alloc, header, table, &item.after_colon())?;
    let count = line.parts.as_slice().len();
    if count < least_fields(table) {
        return Err(TextFault::At(fault(Why::Expected, item.ends())));
    }
    let rest = item.value().from(line.taken);
    let value = value_of(alloc, header, table, count, item.next(), &rest)?;
    Ok(Statement {
        at: item.at(),
        table,
        fields: line.parts,
        value,
    })
}

/// The statement that an item is. Behind the header there are only statements.
fn statement_of_item(alloc: Global, header: &Header, item: &Item) -> Result<Statement, TextFault>
    ensures { Reads (spec.statement_of_kind header.now item.now (header_spec.kind_of item.now)) result }
{
    match kind_of(item) {
        ItemKind::HeaderEntry(_) => Err(TextFault::At(fault(Why::Header, item.at()))),
        ItemKind::StatementOf(table) => statement(alloc, header, table, item),
        ItemKind::NoItem => Err(TextFault::At(fault(Why::Expected, item.at()))),
    }
}

/// The statements that the items of a document are from a place on, in their order. The first fault
/// of an item decides.
pub(crate) fn read_statements(
    alloc: Global,
    document: &Document,
    first: usize,
    header: &Header,
) -> Result<Sequence<Statement>, TextFault>
    ensures { Reads (spec.statements_of header.now (drop first document.now.items)) result }
{
    let mut statements = Vec::new(alloc);
    for place in first..document.len() {
        let statement = statement_of_item(alloc, header, &document.item(place))?;
        statements.push(statement)?;
    }
    Ok(Sequence::of(statements))
}
