ghost use Rattle.std.specs.Prelude.{◌≡◌, ◌+◌, ◌<◌, ◌≤◌, ◌^◌, ◌↔◌, [], ◌∷◌, length, IfOk, OnErr, IsTrue, Err, vec_len};
ghost use Rattle.dp_spec.specs.BoundTree.{inner_count, leaf};
ghost use Rattle.dp_spec.specs.declared.node.NodeKind.TheVariants.{Leaf};
ghost use Rattle.dp_spec.specs.Arena.{kind_at, above_at, grown, inner_nodes, leaves_at, IsTreeAt};
ghost use Rattle.dp_spec.specs.WholeTree.{HasChildren, IsArena};
ghost use Rattle.dp_tree.specs.Nodes.{IsLeaf};
ghost use Rattle.dp_tree.specs.TreeValue.{bound_tree};

use crate::Tree;
use dp_base::Memory;
use dp_spec::{ArenaNode, NodeKind, Step};
use std::alloc::{AllocError, AllocFailed, Global};

/// Why an arena did not grow.
#[derive(Clone, Copy, Debug, PartialEq, Eq)]
pub enum GrowFault {
    /// It would have more nodes than it may have.
    Full,
    /// Memory ran out.
    Memory,
}

impl From<AllocError> for GrowFault {
    ghost use Rattle.std.specs.Prelude.{◌≡◌};
    ghost use Rattle.dp_tree.specs.declared.arena.GrowFault.TheVariants as faults;

    ghost from_gives = { λ _ e. e ≡ faults.Memory };

    fn from(_: AllocError) -> GrowFault {
        GrowFault::Memory
    }
}

/// A growing bound tree: its nodes in one list, by their numbers, of which the root has 0. Contracts see
/// the nodes and how many there may be.
#[derive(Drop)]
pub struct NodeArena {
    nodes: Vec<ArenaNode>,
    most: u32,
}

impl std::marker::Model for NodeArena {
    ghost use Rattle.dp_tree.specs.Nodes.{Nodes, IsArenaWithin};

    ghost Value = { Nodes };

    ghost view = { λ a. record { nodes = a.nodes.items; most = a.most } };

    ghost invariant = { λ a. IsArenaWithin a.nodes.items a.most };
}

impl NodeArena {
    /// One leaf with this bound, node 0, in an arena that may have `most` nodes.
    pub fn new(alloc: Global, bound: i128, most: u32) -> Result<NodeArena, Memory>
        requires { 0 < most }
        ensures leaf { IfOk result (λ a.
            a ≡ record { nodes = record { above = 0; kind = Leaf bound } ∷ []; most = most }) }
    {
        let mut nodes = Vec::new(alloc);
        nodes.push(ArenaNode {
            above: 0,
            kind: NodeKind::Leaf { bound },
        })?;
        Ok(NodeArena { nodes, most })
    }

    /// How many nodes there are.
    pub fn count(&self) -> u32
        ensures { result ≡ length self.now.nodes }
    {
        self.nodes.len() as u32
    }

    /// Whether a leaf stands at a number.
    pub fn is_leaf(&self, node: u32) -> bool
        requires { node < length self.now.nodes }
        ensures { IsTrue result ↔ IsLeaf (kind_at self.now.nodes node) }
    {
        match self.nodes[node as usize].kind {
            NodeKind::Leaf { .. } => true,
            NodeKind::Inner { .. } => false,
        }
    }

    /// How many branches and merges stand above a node.
    pub fn depth(&self, node: u32) -> u32
        requires { node < length self.now.nodes }
        ensures { result ≡ above_at self.now.nodes node }
    {
        self.nodes[node as usize].above
    }

    /// Turns a leaf into a branch or a merge, with leaves of these bounds as its children, and gives the
    /// number of the first child; the others have the next numbers in order. `Full` comes exactly where
    /// there would be more nodes than there may be. After a refusal the arena is unchanged.
    pub fn grow(
        &mut self,
        alloc: Global,
        leaf: u32,
        step: Step,
        bounds: &[i128],
    ) -> Result<u32, GrowFault>
        requires node { leaf < length self.old.nodes }
        requires is_leaf { IsLeaf (kind_at self.old.nodes leaf) }
        requires shallow { above_at self.old.nodes leaf < 2048 }
        requires children { HasChildren step (length bounds.now) }
        ensures ok { IfOk result (λ first.
            self.new ≡ record self.old { nodes = grown self.old.nodes leaf step bounds.now }) }
        ensures first { IfOk result (λ first. first ≡ length self.old.nodes) }
        ensures full { (result ≡ Err GrowFault.Full)
            ↔ (self.old.most < length self.old.nodes + length bounds.now) }
        ensures unchanged { OnErr result (self.new ≡ self.old) }
    {
        let first = self.nodes.len();
        if bounds.len() > self.most as usize - first {
            return Err(GrowFault::Full);
        }
        let above = self.nodes[leaf as usize].above;
        let mut children = leaves(alloc, above + 1, bounds)?;
        self.nodes.append(&mut children)?;
        self.nodes[leaf as usize].kind = NodeKind::Inner {
            step,
            first_child: first as u32,
            children: bounds.len() as u32,
        };
        Ok(first as u32)
    }

    /// The bound tree that has grown, with as many branches and merges as the arena has. It takes time
    /// linear in the number of nodes.
    pub fn finish(self, alloc: Global) -> Result<Tree, Memory>
        ensures tree { IfOk result (λ t. IsTreeAt self.nodes 0 (bound_tree t)) }
        ensures counted { IfOk result (λ t. inner_count (bound_tree t) ≡ inner_nodes self.nodes) }
    {
        build(alloc, &self.nodes, 0)
    }
}

// Leaves of these bounds, each with so many steps above it.
fn leaves(alloc: Global, above: u32, bounds: &[i128]) -> Result<Vec<ArenaNode>, AllocError>
    ensures { IfOk result (λ v. v.items ≡ leaves_at above bounds.now) }
{
    bounds
        .iter()
        .map(|bound| ArenaNode {
            above,
            kind: NodeKind::Leaf { bound: *bound },
        })
        .collect(alloc)
}

// A leaf.
fn leaf_of(bound: &i128) -> Tree
    ensures { bound_tree result ≡ leaf bound.now }
{
    let bound = *bound;
    Tree::Leaf { bound }
}

// The bound tree that begins at a node.
fn build(alloc: Global, nodes: &[ArenaNode], node: u32) -> Result<Tree, Memory>
    requires arena { IsArena nodes.now }
    requires small { length nodes.now < 2 ^ 32 }
    requires node { node < length nodes.now }
    ensures { IfOk result (λ t. IsTreeAt nodes.now node (bound_tree t)) }
{
    match &nodes[node as usize].kind {
        NodeKind::Leaf { bound } => Ok(leaf_of(bound)),
        NodeKind::Inner {
            step,
            first_child,
            children,
        } => match *step {
            Step::Branch { agent, class } => {
                let mut kids = Vec::new(alloc);
                for k in 0..*children {
                    kids.push(build(alloc, nodes, *first_child + k)?)?;
                }
                Ok(Tree::Branch { agent, class, kids })
            }
            Step::Merge {
                agent,
                first,
                second,
            } => {
                let kid = Box::new(alloc, build(alloc, nodes, *first_child)?)?;
                Ok(Tree::Merge {
                    agent,
                    first,
                    second,
                    kid,
                })
            }
        },
    }
}
