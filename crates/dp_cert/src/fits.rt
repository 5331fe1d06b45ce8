//! What is asked of a certificate before it is checked against a model, or written.
ghost use Rattle.std.specs.Prelude.{◌≡◌, ◌+◌, ◌≤◌, ◌^◌, ◌↔◌, IsTrue, SomeIff};
ghost use Rattle.dp_spec.specs.BoundTree.{HasSmallBranches, depth_of, node_count};
ghost use Rattle.dp_spec.specs.Certificate.{HasPolicyOfVersion, IsCertificateOf};
ghost use Rattle.dp_spec.specs.Mode.{IsWithinVersion};
ghost use Rattle.dp_tree.specs.TreeValue.{bound_tree};
ghost use Rattle.dp_cert.specs.CertificateValue.{certificate_of};
ghost use Rattle.dp_cert.specs.TreeSizes.{IsSmallTree};

use crate::Certificate;
use dp_model::{Model, fits, fits_two};
use dp_tree::Tree;

// The greatest number of nodes of a tree.
const MOST_NODES: u32 = 1 << 28;

// The greatest number of branches and merges on a path of a tree.
const DEEPEST: u32 = 2048;

// The greatest number of children of a branch.
const MOST_CHILDREN: usize = 256;

impl Certificate {
    /// Whether this can be a certificate for a model, before it is checked: its version is 1 or 2, its
    /// horizon keeps the limits of its version, its look is from 1 to 16, its policy is a shared policy of
    /// the model over its horizon, in version 1 a plain one, and its tree has at most `2^28` nodes, on no
    /// path more than 2,048 branches and merges, and in each branch from 1 to 256 children. It takes no
    /// memory.
    pub fn fits(&self, model: &Model) -> bool
        ensures { IsTrue result ↔ IsCertificateOf model.now.model (certificate_of self.now) }
    {
        self.is_within_version(model)
            && 1 <= self.look
            && self.look <= 16
            && self.has_policy_of_version(model)
            && small_tree(&self.tree, DEEPEST, MOST_NODES).is_some()
    }

    // Whether the version is known, and the horizon keeps its limits.
    fn is_within_version(&self, model: &Model) -> bool
        ensures { IsTrue result ↔ IsWithinVersion model.now.model self.now.horizon self.now.version }
    {
        if self.horizon == 0 {
            return false;
        }
        match self.version {
            1 => fits(model, self.horizon).is_ok(),
            2 => fits_two(model, self.horizon).is_ok(),
            _ => false,
        }
    }

    // Whether the version is known, and the policy is one of it over the horizon.
    fn has_policy_of_version(&self, model: &Model) -> bool
        ensures { IsTrue result ↔ HasPolicyOfVersion model.now.model (certificate_of self.now) }
    {
        model.invariant();
        self.policy.invariant();
        if self.policy.horizon() != self.horizon {
            return false;
        }
        match self.version {
            1 => self.policy.is_plain(model),
            2 => self.policy.fits_model(model),
            _ => false,
        }
    }
}

// How many nodes a tree has, where these are at most so many, with at most so many branches and merges on a
// path, and from 1 to 256 children in each branch.
fn small_tree(tree: &Tree, deepest: u32, most: u32) -> Option<u32>
    ensures { SomeIff result (IsSmallTree deepest most (bound_tree tree.now)) (node_count (bound_tree tree.now)) }
{
    if most == 0 {
        return None;
    }
    match tree {
        Tree::Leaf { .. } => Some(1),
        Tree::Branch { kids, .. } => {
            if !may_have(deepest, kids.len()) {
                return None;
            }
            let mut count = 1;
            for kid in kids {
                let Some(nodes) = small_tree(kid, deepest - 1, most - count) else {
                    return None;
                };
                count += nodes;
            }
            Some(count)
        }
        Tree::Merge { kid, .. } => {
            if deepest == 0 {
                return None;
            }
            match small_tree(kid, deepest - 1, most - 1) {
                Some(nodes) => Some(1 + nodes),
                None => None,
            }
        }
    }
}

// Whether a branch may have so many children where at most so many branches and merges may be on a path.
fn may_have(deepest: u32, children: usize) -> bool
    ensures { IsTrue result ↔ ((1 ≤ deepest) × (1 ≤ children) × (children ≤ 256)) }
{
    1 <= deepest && 1 <= children && children <= MOST_CHILDREN
}
