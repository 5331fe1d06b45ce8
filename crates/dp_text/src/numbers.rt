//! Numbers of a text: chances, the discount and rewards.
ghost use Rattle.std.specs.Prelude.{◌≡◌, ◌≤◌, IfOk};
ghost use Rattle.dp_meaning.specs.Numbers as spec;
ghost use Rattle.dp_text.specs.Ranges.{is_in};
ghost use Rattle.dp_text.specs.Reading.{Reads};

use crate::fault::{TextFault, fault};
use dp_base::{Decimal, NumFault, read_decimal};
use dp_items::{Piece, Pieces};
use dp_meaning::{Fault, Why};
use dp_model::Sequence;
use std::alloc::Global;

/// In which range a Number has to be.
#[derive(Clone, Copy)]
pub(crate) enum Range {
    /// From 0 to 1, with at most 18 fraction digits.
    Chance,
    /// Of magnitude at most 10^8, with at most 9 fraction digits.
    Reward,
}

impl Range {
    /// Whether a number is in the range.
    fn has(self, d: Decimal) -> bool
        requires { d.digits ≤ 18 }
        ensures { result ≡ is_in self d }
    {
        match self {
            Range::Chance => is_chance(d),
            Range::Reward => is_reward(d),
        }
    }
}

fn is_chance(d: Decimal) -> bool
    requires { d.digits ≤ 18 }
    ensures { result ≡ spec.is_chance d }
{
    d.units >= 0 && d.units.unsigned_abs() <= 10u128.pow(u32::from(d.digits))
}

fn is_reward(d: Decimal) -> bool
    requires { d.digits ≤ 18 }
    ensures { result ≡ spec.is_reward d }
{
    d.units.unsigned_abs() <= 10u128.pow(8 + u32::from(d.digits)) && d.digits <= 9
}

/// The Number of a token, which has to be in a range.
#[tactic(auto, unfolding(dp_meaning::specs::Numbers::number))]
pub(crate) fn number(range: Range, piece: &Piece) -> Result<Decimal, Fault>
    ensures { result ≡ spec.number (is_in range) piece.now }
{
    number_in(range, piece.at(), read_decimal(piece.text()))
}

/// The number that was read at an offset, which has to be in a range.
fn number_in(range: Range, at: u32, read: Result<Decimal, NumFault>) -> Result<Decimal, Fault>
    requires { IfOk read (λ d. d.digits ≤ 18) }
    ensures { result ≡ spec.number_in (is_in range) at read }
{
    match read {
        Ok(d) if range.has(d) => Ok(d),
        Err(NumFault::Shape) => Err(fault(Why::Expected, at)),
        _ => Err(fault(Why::Number, at)),
    }
}

/// Nothing more may stand here.
pub(crate) fn ended(pieces: &Pieces) -> Result<(), Fault>
    ensures { result ≡ spec.ended tt pieces.now }
{
    match pieces.get(0) {
        None => Ok(()),
        Some(piece) => Err(fault(Why::Expected, piece.at())),
    }
}

/// Exactly `count` Numbers, where `next` is the place of one that is missing.
pub(crate) fn numbers(
    alloc: Global,
    range: Range,
    next: u32,
    count: u64,
    pieces: &Pieces,
) -> Result<Sequence<Decimal>, TextFault>
    ensures { Reads (spec.numbers (is_in range) next count pieces.now) result }
{
    let mut values = Vec::new(alloc);
    let mut rest = pieces.from(0);
    let mut left = count;
    while left > 0 {
        let (piece, behind) = match rest.split_first() {
            Some(parts) => parts,
            None => return Err(TextFault::At(fault(Why::Expected, next))),
        };
        let value = number(range, &piece)?;
        values.push(value)?;
        rest = behind;
        left -= 1;
    }
    ended(&rest)?;
    Ok(Sequence::of(values))
}
