//! What knows nothing of planning: want of memory, decimal numbers, divisors, rounded quotients, and laws of whole
//! numbers, sums and lists.
#![tactic(auto)]

mod decimal;
mod divisor;
mod memory;
mod rounding;
mod shape;
mod significand;

pub use decimal::{Decimal, NumFault, read_decimal};
pub use divisor::{gcd, lcm, least_common_multiple, quotient};
pub use memory::Memory;
pub use rounding::{mul_down, mul_up};
pub use shape::{is_decimal, is_index};

#[cfg(test)]
mod tests;
