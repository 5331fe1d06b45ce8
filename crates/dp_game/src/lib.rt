//! The game of a front: what it can earn at most, for the actions that are chosen for its classes so
//! far.
#![tactic(auto)]

mod actions;
mod bounder;
mod change;
mod choices;
mod deeper;
mod deeper_looks;
mod game;
mod greatest;
mod numbers;
mod places;
mod table;

pub use bounder::Bounder;
pub use deeper_looks::DeeperLooks;
pub use game::Game;
