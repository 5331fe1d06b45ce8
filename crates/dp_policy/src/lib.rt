//! Joint policies: by a tree for each agent, and by rows that own histories share.
#![tactic(auto)]

mod actions;
mod fault;
mod joined_rows;
mod joined_trees;
mod kinds;
mod lines;
mod plain_rows;
mod plainness;
mod policy;
mod policy_text;
mod renumbered;
mod row;
mod rows_of_action;
mod shared;
mod shared_form;
mod tree;
mod trees_of_action;
mod write_text;

pub use fault::PolicyFault;
pub use joined_rows::join_rows;
pub use joined_trees::join;
pub use lines::Lines;
pub use plain_rows::plain;
pub use policy::Policy;
pub use policy_text::{policy_texts_have_one_answer, read_policy};
pub use row::Row;
pub use rows_of_action::constant_rows;
pub use shared::Shared;
pub use shared_form::reduce;
pub use tree::PTree;
pub use trees_of_action::constant;
pub use write_text::write_policy;
