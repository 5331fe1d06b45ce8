//! The walk over the nodes of a bound tree, in preorder.
ghost use Rattle.std.specs.Prelude.{◌≡◌, ◌+◌, ◌≤◌, ◌^◌, ◌<◌, IfOk};
ghost use Rattle.dp_spec.specs.BoundTree.{leaf, node_count};
ghost use Rattle.dp_tree.specs.TreeValue.{bound_tree};
ghost use Rattle.dp_check.specs.Bounding.{IsBounding, IsLookRoom, arithmetic_of};
ghost use Rattle.dp_check.specs.Nodes.{IsNodeOf, nodes_at};
ghost use Rattle.dp_check.specs.Verdicts.{outcome};
ghost use Rattle.dp_check.specs.Walks.{walked};

use crate::bounds::Bounds;
use crate::enter::{Entered, enter_branch, enter_merge};
use crate::node::Node;
use crate::tally::Tally;
use crate::verdict::Reason;
use dp_base::Memory;
use dp_model::Model;
use dp_pomdp::LookRoom;
use dp_tree::Tree;
use std::alloc::Global;

// A leaf: the reason there, or none and then it is counted.
fn leaf(m: &Model, bounds: &Bounds, bound: &i128, node: &Node, tally: &mut Tally) -> Option<Reason>
    requires bounds { IsBounding m.now.model bounds.now }
    requires node { IsNodeOf m.now.model bounds.now node.now }
    requires room { tally.old.nodes + 1 < 2 ^ 32 }
    ensures { walked (arithmetic_of m.now.model bounds.now) m.now.model bounds.now.fit.horizon
        (nodes_at m.now.model bounds.now (leaf bound.now) node.now) tally.old ≡ outcome result tally.new }
{
    let bound = *bound;
    let cap = node.cap();
    if bound != cap {
        return Some(Reason::LeafBound {
            node: tally.nodes,
            found: cap,
        });
    }
    let not_full = node.front.stage() < bounds.fit.horizon;
    let narrow = not_full && !node.front.is_wide(m, node.above);
    tally.add_leaf(bound, not_full, narrow);
    None
}

/// The walk over the nodes of a tree from a node on: the first reason in preorder, or none and then all
/// are counted. It goes as deep as the tree, of which no path has more than 2,048 branches and merges.
pub fn walk(
    alloc: Global,
    m: &Model,
    bounds: &Bounds,
    tree: &Tree,
    node: &Node,
    tally: &mut Tally,
    room: &mut LookRoom,
) -> Result<Option<Reason>, Memory>
    requires bounds { IsBounding m.now.model bounds.now }
    requires node { IsNodeOf m.now.model bounds.now node.now }
    requires nodes { tally.old.nodes + node_count (bound_tree tree.now) ≤ 2 ^ 28 }
    requires inner { tally.old.inner ≤ tally.old.nodes }
    requires room { IsLookRoom m.now.model bounds.now room.old }
    ensures is { IfOk result (λ o. walked (arithmetic_of m.now.model bounds.now) m.now.model bounds.now.fit.horizon
        (nodes_at m.now.model bounds.now (bound_tree tree.now) node.now) tally.old ≡ outcome o tally.new) }
    ensures room { IsLookRoom m.now.model bounds.now room.new }
{
    match tree {
        Tree::Leaf { bound } => Ok(leaf(m, bounds, bound, node, tally)),
        Tree::Branch { agent, class, kids } => {
            if let Some(reason) = enter_branch(
                alloc,
                m,
                bounds,
                node,
                *agent,
                *class,
                kids.len(),
                tally,
            )? {
                return Ok(Some(reason));
            }
            for action in 0..m.actions(*agent) {
                let child = node.after_choice(alloc, m, bounds, *agent, *class, action, room)?;
                if let Some(reason) = walk(
                    alloc,
                    m,
                    bounds,
                    &kids[action as usize],
                    &child,
                    tally,
                    room,
                )? {
                    return Ok(Some(reason));
                }
            }
            Ok(None)
        }
        Tree::Merge {
            agent,
            first,
            second,
            kid,
        } => match enter_merge(alloc, m, bounds, node, *agent, *first, *second, tally, room)? {
            Entered::Below(child) => {
                let found = walk(alloc, m, bounds, kid, &child, tally, room)?;
                Ok(found)
            }
            Entered::Wrong(reason) => Ok(Some(reason)),
        },
    }
}
