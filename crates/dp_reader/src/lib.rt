//! Reading of model files.
#![tactic(auto)]

mod build;
mod fault;
mod lists;
mod read;
mod repaired;

pub use build::ReadModel;
pub use dp_meaning::Why;
pub use fault::ModelFault;
pub use read::read_model;
