//! The statements of a model file, and what an item of it is.
ghost use Rattle.std.specs.Prelude.{◌≡◌};
ghost use Rattle.dp_meaning.specs.Cells.{is_same_table};

use crate::Entry;
use dp_base::Decimal;
use dp_model::Sequence;

/// The tables that statements fill.
#[derive(Clone, Copy)]
pub enum Table {
    /// The chances of next states.
    Trans,
    /// The chances of joint observations.
    Obs,
    /// The rewards.
    Reward,
}

impl Table {
    /// Whether the tables are the same.
    pub fn is_same(self, other: Table) -> bool
        ensures { result ≡ is_same_table self other }
    {
        matches!(
            (self, other),
            (Table::Trans, Table::Trans) | (Table::Obs, Table::Obs) | (Table::Reward, Table::Reward)
        )
    }
}

/// What an item of a model file is, by its first token.
#[derive(Clone, Copy)]
pub enum ItemKind {
    /// An entry of the header.
    HeaderEntry(Entry),
    /// A statement of a table.
    StatementOf(Table),
    /// Neither: no such first token begins an item.
    NoItem,
}

/// What a field of a statement says of one list.
#[derive(Clone, Copy)]
pub enum Part {
    /// All of it.
    Any,
    /// One of its numbers.
    Only(u32),
}

/// What a statement gives to the cells that it covers.
#[derive(Drop)]
pub enum Value {
    /// Each cell of a row one over the row's length.
    Uniform,
    /// 1 where the next state is the state, and else 0.
    Identity,
    /// Numbers over the axes that have no field, the last axis fastest.
    Numbers(Sequence<Decimal>),
}

/// A statement, and the offset at which it begins.
#[derive(Drop)]
pub struct Statement {
    pub at: u32,
    pub table: Table,
    /// For each axis that has a field, one part for each of its lists.
    pub fields: Sequence<Sequence<Part>>,
    pub value: Value,
}
