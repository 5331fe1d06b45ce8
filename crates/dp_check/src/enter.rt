//! Branches and merges: whether they may stand where they do.
ghost use Rattle.std.specs.Prelude.{◌≡◌, ◌+◌, ◌<◌, ◌^◌, ◌&&◌, None, IfOk};
ghost use Rattle.dp_spec.specs.BoundTree.{BoundTree, BoundTrees, branch, child_count};
ghost use Rattle.dp_spec.specs.Reasons.{may_branch, may_merge, may_refine};
ghost use Rattle.dp_check.specs.Bounding.{IsBounding, IsLookRoom, arithmetic_of};
ghost use Rattle.dp_check.specs.Entries.{IsEnterable, IsEntered, MayFail, NamesPlace};
ghost use Rattle.dp_check.specs.Nodes.{IsNodeOf, node_with};
ghost use Rattle.dp_check.specs.Verdicts.{outcome};
ghost use Rattle.dp_check.specs.Walks.{entered, has_no_pairs};

use crate::bounds::{Bounds, look_aheads};
use crate::node::Node;
use crate::tally::Tally;
use crate::verdict::Reason;
use crate::classes::{has_no_pairs, is_unassigned};
use dp_base::Memory;
use dp_cluster::MergeFault;
use dp_model::Model;
use dp_pomdp::LookRoom;
use std::alloc::Global;
use std::rc::Rc;

/// A branch on a class of an agent, with so many children: the reason there, or none and then it is
/// counted.
pub fn enter_branch(
    alloc: Global,
    m: &Model,
    bounds: &Bounds,
    node: &Node,
    agent: u32,
    class: u32,
    children: usize,
    tally: &mut Tally,
) -> Result<Option<Reason>, Memory>
    requires bounds { IsBounding m.now.model bounds.now }
    requires node { IsNodeOf m.now.model bounds.now node.now }
    requires nodes { tally.old.nodes + 1 < 2 ^ 32 }
    requires inner { tally.old.inner + 1 < 2 ^ 32 }
    ensures is { IfOk result (λ o. (ks : BoundTrees) → child_count ks ≡ children →
        entered (arithmetic_of m.now.model bounds.now) m.now.model bounds.now.fit.horizon
        (node_with (branch agent class ks) node.now) tally.old ≡ outcome o tally.new) }
    ensures stands { IfOk result (λ o. o ≡ None → IsEnterable m.now.model bounds.now node.now agent class children) }
{
    m.invariant();
    if !may_branch(m, bounds, node, agent, class) {
        return Ok(Some(Reason::Place { node: tally.nodes }));
    }
    let actions = m.actions(agent);
    if children != actions as usize {
        return Ok(Some(Reason::Kids {
            node: tally.nodes,
            found: actions,
        }));
    }
    let merged = stays_merged(alloc, m, bounds, node, tally.merged)?;
    let cap = node.cap();
    tally.add_branch(cap, merged);
    Ok(None)
}

// Whether all branches before stand where no classes could be merged, and one at this node would too.
fn stays_merged(
    alloc: Global,
    m: &Model,
    bounds: &Bounds,
    node: &Node,
    before: bool,
) -> Result<bool, Memory>
    requires bounds { IsBounding m.now.model bounds.now }
    requires node { IsNodeOf m.now.model bounds.now node.now }
    requires stage { node.now.front.front.stage < bounds.now.fit.horizon }
    ensures { IfOk result (λ merged. merged ≡ (before && ((arithmetic_of m.now.model bounds.now).is_exact &&
        has_no_pairs m.now.model node.now.front.front))) }
{
    let _horizon = bounds.fit.horizon;
    if !before {
        return Ok(false);
    }
    let none = has_no_pairs(alloc, m, &node.front)?;
    Ok(none)
}

// Whether a branch on a class of an agent may stand at a node.
fn may_branch(m: &Model, bounds: &Bounds, node: &Node, agent: u32, class: u32) -> bool
    requires bounds { IsBounding m.now.model bounds.now }
    requires node { IsNodeOf m.now.model bounds.now node.now }
    ensures { (ks : BoundTrees) → result ≡ may_branch m.now.model bounds.now.fit.horizon
        (node_with (branch agent class ks) node.now) agent class }
{
    if !may_refine(m, bounds, node) {
        return false;
    }
    is_unassigned(&node.front, agent, class)
}

// Whether a step is left at a node, and it is not wide.
fn may_refine(m: &Model, bounds: &Bounds, node: &Node) -> bool
    requires bounds { IsBounding m.now.model bounds.now }
    requires node { IsNodeOf m.now.model bounds.now node.now }
    ensures { (T : BoundTree) → result ≡ may_refine m.now.model bounds.now.fit.horizon (node_with T node.now) }
{
    node.front.stage() < bounds.fit.horizon && !node.front.is_wide(m, node.above)
}

// Whether a merge of two classes of an agent may stand at a node, if they are equivalent.
fn may_merge(m: &Model, bounds: &Bounds, node: &Node, agent: u32, first: u32, second: u32) -> bool
    requires bounds { IsBounding m.now.model bounds.now }
    requires node { IsNodeOf m.now.model bounds.now node.now }
    ensures { (T : BoundTree) → result ≡ may_merge (arithmetic_of m.now.model bounds.now) m.now.model
        bounds.now.fit.horizon (node_with T node.now) agent first second }
{
    if !bounds.fit.exact {
        return false;
    }
    if !may_refine(m, bounds, node) {
        return false;
    }
    if first >= second {
        return false;
    }
    if !is_unassigned(&node.front, agent, first) {
        return false;
    }
    is_unassigned(&node.front, agent, second)
}

/// What becomes of a merge.
#[derive(Drop)]
pub enum Entered {
    /// The node below it.
    Below(Node),
    /// The reason why it is not right.
    Wrong(Reason),
}

/// A merge of two classes of an agent: the reason there, or the node below it, and then it is counted.
pub fn enter_merge(
    alloc: Global,
    m: &Model,
    bounds: &Bounds,
    node: &Node,
    agent: u32,
    first: u32,
    second: u32,
    tally: &mut Tally,
    room: &mut LookRoom,
) -> Result<Entered, Memory>
    requires bounds { IsBounding m.now.model bounds.now }
    requires node { IsNodeOf m.now.model bounds.now node.now }
    requires nodes { tally.old.nodes + 1 < 2 ^ 32 }
    requires inner { tally.old.inner + 1 < 2 ^ 32 }
    requires room { IsLookRoom m.now.model bounds.now room.old }
    ensures entered { IfOk result
        (IsEntered m.now.model bounds.now node.now agent first second tally.old tally.new) }
    ensures room { IsLookRoom m.now.model bounds.now room.new }
{
    if !may_merge(m, bounds, node, agent, first, second) {
        return Ok(Entered::Wrong(Reason::Place { node: tally.nodes }));
    }
    match node.front.merge(alloc, agent, first, second) {
        Ok(front) => {
            let looks = Rc::new(alloc, look_aheads(alloc, m, bounds, &front, room)?)?;
            let cap = node.cap();
            tally.add_merge(cap);
            Ok(Entered::Below(node.below(m, bounds, front, looks)))
        }
        Err(fault) => {
            let reason = refused(tally.nodes, fault)?;
            Ok(Entered::Wrong(reason))
        }
    }
}

// The reason at a merge whose classes are not equivalent.
fn refused(node: u32, fault: MergeFault) -> Result<Reason, Memory>
    requires { MayFail fault }
    ensures { IfOk result (λ r. NamesPlace node fault r) }
{
    match fault {
        MergeFault::Unequal { place } => Ok(Reason::NotEqual { node, place }),
        MergeFault::Memory => Err(Memory),
        _ => unreachable!(),
    }
}
