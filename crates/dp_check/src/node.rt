//! The nodes of a bound tree.
ghost use Rattle.std.specs.Prelude.{◌≡◌, ◌+◌, ◌<◌, get_or, false, true, suc, IfOk};
ghost use Rattle.std.specs.Int.{int_min};
ghost use Rattle.dp_spec.specs.Fitting.{front_bound};
ghost use Rattle.dp_spec.specs.Steps.{IsUnassigned, front_after_choice, root_front};
ghost use Rattle.dp_spec.specs.Wide.{is_wide};
ghost use Rattle.dp_check.specs.Bounding.{AreLookAheads, IsBounding, IsLookRoom, IsWithRoom, arithmetic_of};
ghost use Rattle.dp_check.specs.Nodes.{IsBelow, IsNodeOf};

use crate::bounds::{Bounds, front_bound, look_aheads};
use dp_base::Memory;
use dp_cluster::Front;
use dp_model::Model;
use dp_pomdp::LookRoom;
use std::alloc::Global;
use std::rc::Rc;

/// A node of a bound tree: its front, the look-aheads of the front's weights, which it shares with nodes of
/// the same weights, how many branches and merges stand above it, and the least bound on its path.
#[derive(Drop)]
pub struct Node {
    pub front: Front,
    pub looks: Rc<Vec<i128>>,
    pub above: u32,
    pub cap: i128,
}

impl Node {
    /// The root of a tree.
    pub fn root(
        alloc: Global,
        m: &Model,
        bounds: &Bounds,
        room: &mut LookRoom,
    ) -> Result<Node, Memory>
        requires bounds { IsBounding m.now.model bounds.now }
        requires room { IsLookRoom m.now.model bounds.now room.old }
        ensures of_model { IfOk result (IsNodeOf m.now.model bounds.now) }
        ensures front { IfOk result (λ n. n.front.front ≡ root_front m.now.model) }
        ensures above { IfOk result (λ n. n.above ≡ 0) }
        ensures cap { IfOk result (λ n. n.cap ≡ front_bound (arithmetic_of m.now.model bounds.now) m.now.model
            bounds.now.fit.horizon bounds.now.look (root_front m.now.model)) }
        ensures room { IsLookRoom m.now.model bounds.now room.new }
    {
        m.invariant();
        let front = Front::root(alloc, m, bounds.fit)?;
        let looks = look_aheads(alloc, m, bounds, &front, room)?;
        let cap = front_bound(m, bounds, &front, &looks);
        let looks = Rc::new(alloc, looks)?;
        Ok(Node {
            front,
            looks,
            above: 0,
            cap,
        })
    }

    /// The least bound on the path.
    #[inline]
    pub fn cap(&self) -> i128
        ensures { result ≡ self.now.cap }
    {
        self.cap
    }

    /// The node after an action is chosen for an unassigned class, and after the advance where it follows.
    pub fn after_choice(
        &self,
        alloc: Global,
        m: &Model,
        bounds: &Bounds,
        agent: u32,
        class: u32,
        action: u32,
        room: &mut LookRoom,
    ) -> Result<Node, Memory>
        requires bounds { IsBounding m.now.model bounds.now }
        requires of_model { IsNodeOf m.now.model bounds.now self.now }
        requires stage { self.now.front.front.stage < bounds.now.fit.horizon }
        requires unassigned { IsUnassigned agent class self.now.front.front.agents }
        requires action { action < get_or m.now.model.actions agent 0 }
        requires narrow { is_wide m.now.model bounds.now.fit.horizon self.now.above self.now.front.front ≡ false }
        requires room { IsLookRoom m.now.model bounds.now room.old }
        ensures below { IfOk result (IsBelow m.now.model bounds.now self.now
            (front_after_choice m.now.model self.now.front.front agent class action)) }
        ensures room { IsLookRoom m.now.model bounds.now room.new }
    {
        let front = self.front.assign(alloc, agent, class, action)?;
        if front.complete() {
            let next = front.advance(alloc, m)?;
            let looks = Rc::new(alloc, look_aheads(alloc, m, bounds, &next, room)?)?;
            Ok(self.below(m, bounds, next, looks))
        } else {
            let looks = self.looks.clone()?;
            Ok(self.below(m, bounds, front, looks))
        }
    }

    /// A node below this one, with this front and its look-aheads.
    pub fn below(&self, m: &Model, bounds: &Bounds, front: Front, looks: Rc<Vec<i128>>) -> Node
        requires bounds { IsBounding m.now.model bounds.now }
        requires front { IsWithRoom m.now.model bounds.now front }
        requires looks { AreLookAheads m.now.model bounds.now front.front looks.value.items }
        requires above { self.now.above < 2048 }
        ensures { IsBelow m.now.model bounds.now self.now front.front result }
    {
        let cap = front_bound(m, bounds, &front, looks.as_ref().as_slice()).min(self.cap);
        Node {
            front,
            looks,
            above: self.above + 1,
            cap,
        }
    }
}
