//! Division by one number, many times, without divisions.
#![tactic(auto)]

mod common;
mod divisor;
mod vectors;

pub use common::common_with;
pub use divisor::Divisor;
pub use vectors::primitive;
