//! What is kept of the nodes that have been checked.
ghost use Rattle.std.specs.Prelude.{◌≡◌, ◌+◌, ◌<◌, ◌^◌, Some};
ghost use Rattle.dp_check.specs.Verdicts.{nothing_counted};
ghost use Rattle.dp_check.specs.Walks.{with_branch, with_leaf, with_lesser, with_merge};

use crate::bounds::{greater, greater_if};

/// How many nodes there are, and of their bounds what the words of a verdict ask for.
#[derive(Clone, Copy)]
pub struct Tally {
    /// How many nodes, and how many of them are branches or merges.
    pub nodes: u32,
    pub inner: u32,
    /// The greatest bound of a leaf, of one that is not full, and of one that is neither full nor wide.
    pub greatest: Option<i128>,
    pub not_full: Option<i128>,
    pub narrow: Option<i128>,
    /// The least bound on the path of a branch or a merge.
    pub least: Option<i128>,
    /// Whether no branch stands where two classes of an agent are equivalent.
    pub merged: bool,
}

impl Tally {
    /// Nothing is counted yet.
    pub fn new(exact: bool) -> Tally
        ensures { result ≡ nothing_counted exact }
    {
        Tally {
            nodes: 0,
            inner: 0,
            greatest: None,
            not_full: None,
            narrow: None,
            least: None,
            merged: exact,
        }
    }

    /// One leaf more.
    pub fn add_leaf(&mut self, bound: i128, not_full: bool, narrow: bool)
        requires { self.old.nodes + 1 < 2 ^ 32 }
        ensures { self.new ≡ with_leaf not_full narrow bound self.old }
    {
        self.nodes += 1;
        self.greatest = Some(greater(self.greatest, bound));
        self.not_full = greater_if(not_full, self.not_full, bound);
        self.narrow = greater_if(narrow, self.narrow, bound);
    }

    /// One branch more.
    pub fn add_branch(&mut self, cap: i128, merged: bool)
        requires nodes { self.old.nodes + 1 < 2 ^ 32 }
        requires inner { self.old.inner + 1 < 2 ^ 32 }
        ensures { self.new ≡ with_branch cap merged self.old }
    {
        self.nodes += 1;
        self.inner += 1;
        self.least = Some(lesser(self.least, cap));
        self.merged = merged;
    }

    /// One merge more.
    pub fn add_merge(&mut self, cap: i128)
        requires nodes { self.old.nodes + 1 < 2 ^ 32 }
        requires inner { self.old.inner + 1 < 2 ^ 32 }
        ensures { self.new ≡ with_merge cap self.old }
    {
        self.nodes += 1;
        self.inner += 1;
        self.least = Some(lesser(self.least, cap));
    }
}

// The lesser of a number and another, if there is one.
fn lesser(least: Option<i128>, value: i128) -> i128
    ensures { Some result ≡ with_lesser least value }
{
    match least {
        None => value,
        Some(other) => value.min(other),
    }
}
