ghost use Rattle.std.specs.Prelude.{◌≡◌, ◌+◌, ◌*◌, ◌<◌, ◌≤◌, ◌^◌, ◌∷◌, [], ℕ, map, All, OnOk, IfOk, IfSome, IfNone};
ghost use Rattle.std.specs.Prelude.{◌≤ℤ◌, ◌<ℤ◌, ◌⊎◌};
ghost use Rattle.std.specs.List.Sorted.{IsPermutation};
ghost use Rattle.std.specs.BinaryHeap.{heap_items};
ghost use Rattle.dp_spec.specs.Searched.{IsSearched};
ghost use Rattle.dp_tree.specs.TreeValue.{bound_tree};
ghost use Rattle.dp_search.specs.Running.{IsFinished, IsRunning};
ghost use Rattle.dp_search.specs.SearchStates.{IsState, held_leaves, open_leaf, Runs};

use crate::children::leaves_of;
use crate::held_leaf::HeldLeaf;
use crate::held_leaves::HeldLeaves;
use crate::look::{copied, exceeds, hold, look_at_all, try_policy};
use crate::planner::Planner;
use crate::state::State;
use dp_base::Memory;
use dp_tree::{NodeArena, Tree};
use std::alloc::Global;

/// Takes a leaf of greatest bound, where the budget is not spent and the leaf is above the lower end.
fn take_greatest<F: Drop, P>(state: &mut State<F, P>, budget: u32) -> Option<HeldLeaf<F>>
    ensures arena { state.new.arena ≡ state.old.arena }
    ensures lower { state.new.lower ≡ state.old.lower }
    ensures policy { state.new.policy ≡ state.old.policy }
    ensures inner { state.new.inner ≡ state.old.inner }
    ensures moved { IfSome result (λ x.
        IsPermutation (heap_items state.old.held.heap) (x ∷ heap_items state.new.held.heap)) }
    ensures greatest { IfSome result (λ x. All (λ y. y.bound ≤ℤ x.bound) (heap_items state.new.held.heap)) }
    ensures above { IfSome result (λ x. state.old.lower <ℤ x.bound) }
    ensures unspent { IfSome result (λ x. state.old.inner < budget) }
    ensures stop { IfNone result
        ((budget ≤ state.old.inner)
        ⊎ All (λ e. e.bound ≤ℤ state.old.lower) (heap_items state.old.held.heap)) }
{
    if state.inner >= budget {
        return None;
    }
    match state.held.pop() {
        None => None,
        Some(top) => {
            if exceeds(&top.bound, &state.lower) {
                Some(top)
            } else {
                None
            }
        }
    }
}

// The bounds of leaves.
fn bounds_of<F>(alloc: Global, leaves: &[HeldLeaf<F>]) -> Result<Vec<i128>, Memory>
    ensures { IfOk result (λ v. v.items ≡ map (λ (o : HeldLeaf F). o.bound) leaves.now) }
{
    let bounds: Vec<i128> = leaves.iter().map(|leaf| leaf.bound).collect(alloc)?;
    Ok(bounds)
}

/// Makes a step at the greatest leaf, and looks at its children.
fn grow_top<X: Planner>(
    planner: &X,
    alloc: Global,
    room: &mut X::Room,
    state: &mut State<X::Front, X::Policy>,
    budget: u32,
    top: HeldLeaf<X::Front>,
) -> Result<(), Memory>
    requires ready { X.IsReady planner.now }
    requires runs { IsRunning (X.space planner.now) (X.constants planner.now) (X.width planner.now) budget
        state.old.arena state.old.lower state.old.inner
        (open_leaf (X.meaning planner.now) top ∷ held_leaves (X.meaning planner.now) state.old) [] }
    requires front { X.IsFront planner.now top.front }
    requires greatest { All (λ y. y.bound ≤ℤ top.bound) (heap_items state.old.held.heap) }
    requires above { state.old.lower <ℤ top.bound }
    requires unspent { state.old.inner < budget }
    requires small { 1 + budget * X.width planner.now < 2 ^ 32 }
    requires kept { IsState (X.IsFront planner.now) (X.IsPolicy planner.now) (X.worth planner.now) state.old }
    requires room { X.IsRoom planner.now room.old }
    ensures runs { OnOk result
        (Runs (X.meaning planner.now) (X.space planner.now) (X.constants planner.now) (X.width planner.now) budget
        state.new []) }
    ensures kept { OnOk result
        (IsState (X.IsFront planner.now) (X.IsPolicy planner.now) (X.worth planner.now) state.new) }
    ensures inner { OnOk result (state.new.inner ≡ state.old.inner + 1) }
    ensures room { OnOk result (X.IsRoom planner.now room.new) }
{
    let expanded = planner.expand(alloc, room, &top.front)?;
    let leaves = leaves_of(alloc, state.arena.count(), &top, expanded.children)?;
    let bounds = bounds_of(alloc, &leaves)?;
    match state.arena.grow(alloc, top.node, expanded.step, &bounds) {
        Ok(_) => {
            state.inner += 1;
            look_at_all(planner, alloc, state, leaves)
        }
        // It is never full: there is room for the children of each step of the budget.
        Err(_) => Err(Memory),
    }
}

/// Tries a policy from below the greatest leaf, outside of the tree, after 1, 2, 4 steps and so on: an
/// open search has a good lower end early.
fn try_completion<X: Planner>(
    planner: &X,
    alloc: Global,
    room: &mut X::Room,
    state: &mut State<X::Front, X::Policy>,
) -> Result<(), Memory>
    requires ready { X.IsReady planner.now }
    requires runs { (budget : ℕ) × Runs (X.meaning planner.now) (X.space planner.now) (X.constants planner.now)
        (X.width planner.now) budget state.old [] }
    requires kept { IsState (X.IsFront planner.now) (X.IsPolicy planner.now) (X.worth planner.now) state.old }
    requires room { X.IsRoom planner.now room.old }
    ensures raised { OnOk result (state.old.lower ≤ℤ state.new.lower) }
    ensures kept { OnOk result
        (IsState (X.IsFront planner.now) (X.IsPolicy planner.now) (X.worth planner.now) state.new) }
    ensures arena { state.new.arena ≡ state.old.arena }
    ensures held { state.new.held ≡ state.old.held }
    ensures inner { state.new.inner ≡ state.old.inner }
    ensures room { OnOk result (X.IsRoom planner.now room.new) }
{
    if !state.inner.is_power_of_two() {
        return Ok(());
    }
    let found = match state.held.greatest() {
        None => return Ok(()),
        Some(leaf) => planner.completion(alloc, room, &leaf.front)?,
    };
    match found {
        None => Ok(()),
        Some(policy) => try_policy(planner, alloc, state, policy),
    }
}

/// Grows the tree best first, until the budget is spent or no held leaf is above the lower end.
fn grow_all<X: Planner>(
    planner: &X,
    alloc: Global,
    room: &mut X::Room,
    state: &mut State<X::Front, X::Policy>,
    budget: u32,
) -> Result<(), Memory>
    requires ready { X.IsReady planner.now }
    requires runs { Runs (X.meaning planner.now) (X.space planner.now) (X.constants planner.now)
        (X.width planner.now) budget state.old [] }
    requires small { 1 + budget * X.width planner.now < 2 ^ 32 }
    requires kept { IsState (X.IsFront planner.now) (X.IsPolicy planner.now) (X.worth planner.now) state.old }
    requires room { X.IsRoom planner.now room.old }
    requires constant { state.old.inner ≡ 0 → X.IsBestConstant planner.now state.old.policy }
    ensures finished { OnOk result
        (IsFinished (X.space planner.now) (X.constants planner.now) budget
        state.new.arena state.new.lower state.new.inner) }
    ensures policy { OnOk result (X.IsPolicy planner.now state.new.policy) }
    ensures worth { OnOk result (X.worth planner.now state.new.policy ≡ state.new.lower) }
    ensures constant { OnOk result (state.new.inner ≡ 0 → X.IsBestConstant planner.now state.new.policy) }
{
    while let Some(top) = take_greatest(state, budget) {
        grow_top(planner, alloc, room, state, budget, top)?;
        try_completion(planner, alloc, room, state)?;
    }
    Ok(())
}

/// What a search ends with: the tree, the best policy with its low worth, and how many steps the tree
/// has.
#[derive(Drop)]
pub struct Searched<P> {
    pub tree: Tree,
    pub policy: P,
    pub lower: i128,
    pub inner: u32,
}

/// Searches best first with at most `budget` steps: it grows a bound tree whose open leaves above the
/// lower end are the ones that may still hold a better policy, the greatest bound first, and of equal
/// bounds the deepest. (Oliehoek and Amato 2016, chapter 5: branch and bound over partial policies.)
///
/// `lower` is the low worth of `policy`, and at least that of every constant policy and of every full
/// leaf's policy; with no step the policy is the best constant one.
pub fn search_best_first<X: Planner>(
    planner: &X,
    alloc: Global,
    budget: u32,
) -> Result<Searched<X::Policy>, Memory>
    requires ready { X.IsReady planner.now }
    requires small { 1 + budget * X.width planner.now < 2 ^ 32 }
    ensures searched { IfOk result (λ s.
        IsSearched (X.space planner.now) budget (X.constants planner.now) s.lower s.inner
        (bound_tree s.tree)) }
    ensures policy { IfOk result (λ s. X.IsPolicy planner.now s.policy) }
    ensures lower { IfOk result (λ s. X.worth planner.now s.policy ≡ s.lower) }
    ensures constant { IfOk result (λ s. s.inner ≡ 0 → X.IsBestConstant planner.now s.policy) }
{
    let mut room = planner.room(alloc)?;
    let policy = planner.best_constant(alloc)?;
    let lower = planner.low_worth(alloc, &policy)?;
    let root = planner.root(alloc, &mut room)?;
    let bound = copied(&root.bound);
    let most = 1 + budget * planner.most_children();
    let mut state = State {
        arena: NodeArena::new(alloc, bound, most)?,
        held: HeldLeaves::new(alloc),
        lower,
        policy,
        inner: 0,
    };
    let leaf = HeldLeaf {
        bound,
        above: 0,
        node: 0,
        front: root.front,
    };
    hold(planner, &mut state, leaf)?;
    grow_all(planner, alloc, &mut room, &mut state, budget)?;
    let lower = copied(&state.lower);
    let State {
        arena,
        policy,
        inner,
        ..
    } = state;
    Ok(Searched {
        tree: arena.finish(alloc)?,
        policy,
        lower,
        inner,
    })
}
