//! The header of a model file.
use crate::GivenList;
use dp_base::Decimal;
use dp_model::Sequence;

/// How a run starts.
#[derive(Drop)]
pub enum Start {
    /// In every state alike.
    AnyState,
    /// In one state.
    OneState(u32),
    /// By a chance for each state, after the offset at which the first of these stands.
    StartRow(u32, Sequence<Decimal>),
}

/// The entries of a header.
#[derive(Clone, Copy)]
pub enum Entry {
    Agents,
    Discount,
    Values,
    States,
    StartEntry,
    Actions,
    Observations,
}

/// What the entries that have come so far say.
#[derive(Drop)]
pub struct Entries {
    pub agents: Option<GivenList>,
    pub discount: Option<Decimal>,
    /// Whether the numbers of the rewards are costs.
    pub cost: Option<bool>,
    pub states: Option<GivenList>,
    pub start: Option<Start>,
    /// For each agent, as the observations are.
    pub actions: Option<Sequence<GivenList>>,
    pub observations: Option<Sequence<GivenList>>,
}

/// What all seven entries say.
#[derive(Drop)]
pub struct Header {
    pub agents: GivenList,
    pub discount: Decimal,
    /// Whether the numbers of the rewards are costs.
    pub cost: bool,
    pub states: GivenList,
    pub start: Start,
    pub actions: Sequence<GivenList>,
    pub observations: Sequence<GivenList>,
}
