//! The tables of a model, from the text of its file: its limits, its scales, the values of its
//! cells, and the repair of its rows.
#![tactic(auto)]

mod blocks;
mod bounded;
mod chance_table;
mod chances;
mod covering;
mod limits;
mod lists;
mod repair;
mod reward_table;
mod rows;
mod scales;
mod sizes;
mod start;
mod statements;
mod writing;

pub use bounded::BoundedText;
pub use chances::{ChancesOf, given_chances, repair_chances};
pub use reward_table::rewards;
