//! What may follow what in a model: lists that are made once, so that no step looks at chances of 0 again.
#![tactic(auto)]

mod links;

pub use links::Links;
