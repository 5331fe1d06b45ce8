//! What a model file means: a model, or the first fault of its text, or the first limit that it passes.
//!
//! The meaning is a definition in `specs/`, and what is proved of it is the clause of a public
//! function.
#![tactic(auto)]

mod cells;
mod faults;
mod given_list;
mod header;
mod models;
mod rows;
mod statement;
mod text;
mod why;

pub use cells::{
    last_covering_chance_wins, last_covering_reward_wins, observations_are_nearly_given,
    other_chances_are_kept, other_rewards_are_kept, rewards_are_as_given,
    right_observations_are_kept, right_transitions_are_kept, start_is_nearly_given,
    transitions_are_nearly_given, uncovered_observations_are_zero, uncovered_rewards_are_zero,
    uncovered_transitions_are_zero,
};
pub use faults::bad_bytes_come_first;
pub use given_list::GivenList;
pub use header::{Entries, Entry, Header, Start};
pub use models::{meanings_are_models, names_are_names};
pub use rows::{repaired_rows_are_counted, rows_sum_to_their_scales};
pub use statement::{ItemKind, Part, Statement, Table, Value};
pub use text::Text;
pub use why::{Fault, Why};
