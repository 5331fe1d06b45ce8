ghost use Rattle.std.specs.Prelude.{◌≡◌, ◌<◌, ◌≤◌, ◌^◌, true, false, length};
ghost use Rattle.std.specs.Fn.{FnReturnsAt};
ghost use Rattle.dp_search.specs.Rules.{IsBranchingRule};

use crate::place::Place;

/// A branching rule: of the places of a front it answers the number of the one that a branch takes.
/// Contracts see the rule, and whether it is told the spreads of the places.
#[derive(Drop)]
pub struct Chooser<F> {
    rule: F,
    spreads: bool,
}

impl<F> std::marker::Model for Chooser<F> {
    ghost use Rattle.dp_search.specs.Rules.{KeptChooser};

    ghost Value = { KeptChooser F };

    ghost view = { λ c. record { rule = c.rule; spreads = c.spreads } };
}

impl<F: Fn(&[Place]) -> usize> Chooser<F> {
    /// Keeps a rule that may be called on every list of 1 to 2^26 places and answers a number below the
    /// list's length.
    pub fn new(rule: F) -> Chooser<F>
        requires rule { IsBranchingRule F.Fn rule }
        ensures { result ≡ record { rule = rule; spreads = true } }
    {
        Chooser {
            rule,
            spreads: true,
        }
    }

    /// Keeps such a rule that reads no spread: it is told 0 in place of each. A plan then takes less time.
    pub fn without_spreads(rule: F) -> Chooser<F>
        requires rule { IsBranchingRule F.Fn rule }
        ensures { result ≡ record { rule = rule; spreads = false } }
    {
        Chooser {
            rule,
            spreads: false,
        }
    }

    /// Whether the rule is told the spreads of the places.
    #[inline]
    pub fn spreads(&self) -> bool
        ensures { result ≡ self.now.spreads }
    {
        self.spreads
    }

    /// What the rule answers for a list of 1 to 2^26 places. No front has more.
    pub fn pick(&self, places: &[Place]) -> usize
        requires rule { IsBranchingRule F.Fn self.now.rule }
        requires some { 0 < length places.now }
        requires few { length places.now ≤ 2 ^ 26 }
        ensures answer { FnReturnsAt F.Fn self.now.rule places.now result }
        ensures below { result < length places.now }
    {
        (self.rule)(places)
    }
}
