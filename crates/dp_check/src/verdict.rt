//! The verdict of a check.

/// Why a certificate is not valid: what stands in it is not what the definitions give, which is said with
/// it. Nodes are numbered in preorder from 0.
#[derive(Clone, Copy, Debug, PartialEq, Eq)]
pub enum Reason {
    /// The mode is exact where `found`, and else outward.
    Mode { found: bool },
    /// The unit is `found`.
    Unit { found: i128 },
    /// The lower end is `found`: the worth of the policy, rounded down.
    Lower { found: i128 },
    /// A branch or a merge may not stand where it does.
    Place { node: u32 },
    /// The agent of a branch has `found` actions, and the branch another number of children.
    Kids { node: u32, found: u32 },
    /// The two classes of a merge are not equivalent: they differ first at this place, which is the number
    /// of the other agents' joint class times the number of states, and the state.
    NotEqual { node: u32, place: u32 },
    /// The least bound on the path of a leaf is `found`.
    LeafBound { node: u32, found: i128 },
    /// The tree has `found` branches and merges.
    Inner { found: u32 },
    /// The greatest bound of a leaf is `found`.
    Upper { found: i128 },
}

/// What a check finds.
#[derive(Clone, Copy, Debug, PartialEq, Eq)]
pub enum Verdict {
    /// The certificate is valid.
    Accepted {
        /// The bound of every leaf that is not full is at most the lower end, and in exact mode that of
        /// every leaf.
        closed: bool,
        /// No branch and no merge has a lesser bound than a leaf that could still be refined.
        lean: bool,
        /// The mode is exact, and no branch stands where two classes could be merged.
        merged: bool,
    },
    /// It is not, for this reason, the first in order: mode, unit, lower end, the nodes of the tree in
    /// preorder, the number of branches and merges, upper end.
    Rejected(Reason),
}
