ghost use Rattle.std.specs.Prelude.{◌≡◌, ◌∷◌, [], ℕ, List, map, All, OnOk, false, true, ◌≤ℤ◌, ◌<ℤ◌};
ghost use Rattle.dp_spec.specs.SearchState.{OpenLeaf};
ghost use Rattle.dp_search.specs.SearchStates.{IsState, open_leaf, Runs};

use crate::held_leaf::HeldLeaf;
use crate::planner::Planner;
use crate::state::State;
use dp_base::Memory;
use std::alloc::Global;

/// A copy of a bound.
pub fn copied(a: &i128) -> i128
    ensures { result ≡ a.now }
{
    let a = *a;
    a
}

/// Whether a is more than b.
pub fn exceeds(a: &i128, b: &i128) -> bool
    ensures more { result ≡ true → b.now <ℤ a.now }
    ensures not { result ≡ false → a.now ≤ℤ b.now }
{
    let a = *a;
    let b = *b;
    a > b
}

/// Tries a policy: it becomes the best so far where its low worth is above the lower end.
pub fn try_policy<X: Planner>(
    planner: &X,
    alloc: Global,
    state: &mut State<X::Front, X::Policy>,
    policy: X::Policy,
) -> Result<(), Memory>
    requires ready { X.IsReady planner.now }
    requires policy { X.IsPolicy planner.now policy }
    requires kept { IsState (X.IsFront planner.now) (X.IsPolicy planner.now) (X.worth planner.now) state.old }
    ensures tried { OnOk result (X.worth planner.now policy ≤ℤ state.new.lower) }
    ensures raised { state.old.lower ≤ℤ state.new.lower }
    ensures kept { OnOk result
        (IsState (X.IsFront planner.now) (X.IsPolicy planner.now) (X.worth planner.now) state.new) }
    ensures arena { state.new.arena ≡ state.old.arena }
    ensures held { state.new.held ≡ state.old.held }
    ensures inner { state.new.inner ≡ state.old.inner }
{
    let worth = planner.low_worth(alloc, &policy)?;
    if exceeds(&worth, &state.lower) {
        state.lower = worth;
        state.policy = policy;
    }
    Ok(())
}

/// Holds a leaf that is not full, where it is not wide and above the lower end.
pub fn hold<X: Planner>(
    planner: &X,
    state: &mut State<X::Front, X::Policy>,
    leaf: HeldLeaf<X::Front>,
) -> Result<(), Memory>
    requires ready { X.IsReady planner.now }
    requires front { X.IsFront planner.now leaf.front }
    requires early { (X.space planner.now).is_full (X.meaning planner.now leaf.front) ≡ false }
    requires kept { IsState (X.IsFront planner.now) (X.IsPolicy planner.now) (X.worth planner.now) state.old }
    ensures runs { OnOk result ((budget : ℕ) (rest : List OpenLeaf) →
        Runs (X.meaning planner.now) (X.space planner.now) (X.constants planner.now) (X.width planner.now) budget
        state.old (open_leaf (X.meaning planner.now) leaf ∷ rest) →
        Runs (X.meaning planner.now) (X.space planner.now) (X.constants planner.now) (X.width planner.now) budget
        state.new rest) }
    ensures kept { OnOk result
        (IsState (X.IsFront planner.now) (X.IsPolicy planner.now) (X.worth planner.now) state.new) }
    ensures policy { OnOk result (state.new.policy ≡ state.old.policy) }
    ensures inner { OnOk result (state.new.inner ≡ state.old.inner) }
{
    if exceeds(&leaf.bound, &state.lower) && !planner.is_wide(leaf.above, &leaf.front) {
        state.held.push(leaf)?;
    }
    Ok(())
}

/// Looks at a new leaf: the policy of a full one is tried, and one that is neither full nor wide and is
/// above the lower end is held.
fn look_at<X: Planner>(
    planner: &X,
    alloc: Global,
    state: &mut State<X::Front, X::Policy>,
    leaf: HeldLeaf<X::Front>,
) -> Result<(), Memory>
    requires ready { X.IsReady planner.now }
    requires front { X.IsFront planner.now leaf.front }
    requires kept { IsState (X.IsFront planner.now) (X.IsPolicy planner.now) (X.worth planner.now) state.old }
    ensures runs { OnOk result ((budget : ℕ) (rest : List OpenLeaf) →
        Runs (X.meaning planner.now) (X.space planner.now) (X.constants planner.now) (X.width planner.now) budget
        state.old (open_leaf (X.meaning planner.now) leaf ∷ rest) →
        Runs (X.meaning planner.now) (X.space planner.now) (X.constants planner.now) (X.width planner.now) budget
        state.new rest) }
    ensures kept { OnOk result
        (IsState (X.IsFront planner.now) (X.IsPolicy planner.now) (X.worth planner.now) state.new) }
    ensures inner { OnOk result (state.new.inner ≡ state.old.inner) }
{
    if planner.is_full(&leaf.front) {
        let policy = planner.policy(alloc, &leaf.front)?;
        try_policy(planner, alloc, state, policy)
    } else {
        hold(planner, state, leaf)
    }
}

/// Looks at new leaves, one after the other.
pub fn look_at_all<X: Planner>(
    planner: &X,
    alloc: Global,
    state: &mut State<X::Front, X::Policy>,
    leaves: Vec<HeldLeaf<X::Front>>,
) -> Result<(), Memory>
    requires ready { X.IsReady planner.now }
    requires fronts { All (λ o. X.IsFront planner.now o.front) leaves.items }
    requires kept { IsState (X.IsFront planner.now) (X.IsPolicy planner.now) (X.worth planner.now) state.old }
    ensures runs { OnOk result ((budget : ℕ) →
        Runs (X.meaning planner.now) (X.space planner.now) (X.constants planner.now) (X.width planner.now) budget
        state.old (map (open_leaf (X.meaning planner.now)) leaves.items) →
        Runs (X.meaning planner.now) (X.space planner.now) (X.constants planner.now) (X.width planner.now) budget
        state.new []) }
    ensures kept { OnOk result
        (IsState (X.IsFront planner.now) (X.IsPolicy planner.now) (X.worth planner.now) state.new) }
    ensures inner { OnOk result (state.new.inner ≡ state.old.inner) }
{
    for leaf in leaves {
        look_at(planner, alloc, state, leaf)?;
    }
    Ok(())
}
