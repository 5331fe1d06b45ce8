//! Policy trees.
ghost use Rattle.std.specs.Prelude.{◌≡◌, ◌<◌, ◌↔◌, IsTrue};
ghost use Rattle.dp_spec.specs.PolicyTree.{IsPolicyTree, root_action, subtree, subtrees};
ghost use Rattle.dp_policy.specs.TreeValue.{policy_tree};
ghost use Rattle.dp_policy.specs.Trees.{tree_count};

/// A policy tree of an agent (Oliehoek and Amato, A Concise Introduction to Decentralized POMDPs,
/// chapter 3): the action that is done now, and for each own observation, in their order, the tree
/// that is followed after it. The last step has none. Contracts see the `PolicyTree` that it holds.
#[derive(Drop)]
pub struct PTree {
    pub action: u32,
    pub kids: Vec<PTree>,
}

impl PTree {
    /// The action that is done now.
    #[inline]
    #[tactic(auto, using(crate::proofs::TreeValues::action_is))]
    pub fn root_action(&self) -> u32
        ensures { result ≡ root_action (policy_tree self.now) }
    {
        self.action
    }

    /// What remains of the tree after an own observation.
    #[inline]
    pub fn subtree(&self, seen: u32) -> &PTree
        requires { seen < tree_count (subtrees (policy_tree self.now)) }
        ensures { policy_tree result.now ≡ subtree (policy_tree self.now) seen }
    {
        &self.kids[seen as usize]
    }
}

// Whether this is a tree of so many steps.
pub(crate) fn is_tree(tree: &PTree, actions: u32, observations: u32, steps: u32) -> bool
    requires { 0 < steps }
    ensures { IsTrue result ↔ IsPolicyTree actions observations steps (policy_tree tree.now) }
{
    if tree.action >= actions {
        return false;
    }
    if steps == 1 {
        return tree.kids.len() == 0;
    }
    if tree.kids.len() != observations as usize {
        return false;
    }
    for kid in &tree.kids {
        if !is_tree(kid, actions, observations, steps - 1) {
            return false;
        }
    }
    true
}
