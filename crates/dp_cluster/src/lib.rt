//! Fronts: partial joint policies with the weights of their joint classes, in either mode.
#![tactic(auto)]

mod advance;
mod equal;
mod front;
mod full;
mod join;
mod key;
mod limits;
mod merge;
mod part;
mod proportion;
mod runs;
mod shared;

pub use front::Front;
pub use merge::MergeFault;
