//! The simulator: episodes of a joint policy in a model, drawn by the words of a generator.
#![tactic(auto)]

mod actor;
mod draw;
mod joint;
mod simulation;
mod step;

pub use actor::Actor;
pub use simulation::episode;
pub use step::{SimStep, Trace};
