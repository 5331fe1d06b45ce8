//! The two arithmetics, sound by the laws; the numbers below them are handed on.
#![tactic(auto)]

mod arith;
mod exact;
mod fraction;
mod outward;
mod spans;
mod vectors;

pub use arith::Arith;
pub use dp_base::{
    Decimal, Memory, NumFault, gcd, is_decimal, is_index, lcm, mul_down, mul_up, read_decimal,
};
pub use dp_spec::{Scales, Span};
pub use exact::Exact;
pub use fraction::fraction_text;
pub use outward::Outward;
pub use spans::add_spans;
pub use vectors::primitive;

#[cfg(test)]
mod arithmetic_tests;
