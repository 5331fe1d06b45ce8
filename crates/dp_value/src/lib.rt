//! Values of joint policies, computed forwards.
#![tactic(auto)]

mod joint_trees;
mod linked;
mod reward;
mod room;
mod rows;
mod shared_worth;
mod tree_room;
mod tree_worth;
mod update;

pub use reward::weighted_reward;
pub use room::{SharedRoom, Worth, worth_shared};
pub use tree_room::{Room, worth};
pub use update::{next_weight, next_weight_in};

#[cfg(test)]
mod tests;
