ghost use Rattle.std.specs.Prelude.{◌≡◌, ◌<◌, ◌≤◌, ℕ, ℤ, map, length, false, true, IfOk, IfSome, OnOk, All};
ghost use Rattle.dp_spec.specs.Front.{Front};
ghost use Rattle.dp_spec.specs.Space.{Space};
ghost use Rattle.dp_spec.specs.WholeTree.{HasChildren};

use dp_base::Memory;
use dp_spec::Step;
use std::alloc::Global;

/// A front after a step, and its own bound.
#[derive(Drop)]
pub struct Child<F> {
    pub front: F,
    pub bound: i128,
}

/// A step that a search makes at a front, and the fronts after it, in order.
#[derive(Drop)]
pub struct Expanded<F> {
    pub step: Step,
    pub children: Vec<Child<F>>,
}

/// What a search asks of fronts, bounds and policies.
///
/// `space` says what the calls mean: the root, the fronts after a step, the steps that may be made, and
/// the bound of a front. `meaning` is the front that a value of `Front` stands for.
pub trait Planner {
    /// A front, as the planner keeps it.
    type Front: Drop;

    /// A joint policy.
    type Policy: Drop;

    /// What is kept from one call to the next, so that no work is done twice.
    type Room: Drop;

    // what the calls may be made of: all that is known of a planner besides its type
    ghost IsReady: { Self → Type 0 };

    ghost space: { Self → Space };

    ghost meaning: { Self → Self.Front → Front };

    // the value stands for a front of this planner
    ghost IsFront: { Self → Self.Front → Type 0 };

    // the value is a joint policy of this planner
    ghost IsPolicy: { Self → Self.Policy → Type 0 };

    // what is kept was made by this planner
    ghost IsRoom: { Self → Self.Room → Type 0 };

    // the low worth of a policy
    ghost worth: { Self → Self.Policy → ℤ };

    // the greatest low worth of a constant policy
    ghost constants: { Self → ℤ };

    // the constant policy of the least joint action among those of that worth
    ghost IsBestConstant: { Self → Self.Policy → Type 0 };

    // no step has more children
    ghost width: { Self → ℕ };

    /// The most children that a step has.
    fn most_children(&self) -> u32
        requires ready { IsReady self.now }
        ensures { result ≡ width self.now };

    /// Nothing kept as yet.
    fn room(&self, alloc: Global) -> Result<Self::Room, Memory>
        requires ready { IsReady self.now }
        ensures { IfOk result (λ r. IsRoom self.now r) };

    /// The best constant policy.
    fn best_constant(&self, alloc: Global) -> Result<Self::Policy, Memory>
        requires ready { IsReady self.now }
        ensures policy { IfOk result (λ p. IsPolicy self.now p) }
        ensures best { IfOk result (λ p. IsBestConstant self.now p) }
        ensures worth { IfOk result (λ p. worth self.now p ≡ constants self.now) };

    /// The low worth of a policy.
    fn low_worth(&self, alloc: Global, policy: &Self::Policy) -> Result<i128, Memory>
        requires ready { IsReady self.now }
        requires policy { IsPolicy self.now policy.now }
        ensures { IfOk result (λ x. x ≡ worth self.now policy.now) };

    /// The root's front and bound.
    fn root(&self, alloc: Global, room: &mut Self::Room) -> Result<Child<Self::Front>, Memory>
        requires ready { IsReady self.now }
        requires room { IsRoom self.now room.old }
        ensures of_planner { IfOk result (λ c. IsFront self.now c.front) }
        ensures front { IfOk result (λ c. meaning self.now c.front ≡ (space self.now).root) }
        ensures bound { IfOk result (λ c. c.bound ≡ (space self.now).bound (space self.now).root) }
        ensures early { IfOk result (λ c. (space self.now).is_full (space self.now).root ≡ false) }
        ensures room { OnOk result (IsRoom self.now room.new) };

    /// Whether every step of the horizon is fixed.
    fn is_full(&self, front: &Self::Front) -> bool
        requires ready { IsReady self.now }
        requires of_planner { IsFront self.now front.now }
        ensures { result ≡ (space self.now).is_full (meaning self.now front.now) };

    /// Whether a node with `above` steps above it and this front is wide.
    fn is_wide(&self, above: u32, front: &Self::Front) -> bool
        requires ready { IsReady self.now }
        requires of_planner { IsFront self.now front.now }
        ensures { result ≡ (space self.now).is_wide above (meaning self.now front.now) };

    /// The policy that a full front fixes.
    fn policy(&self, alloc: Global, front: &Self::Front) -> Result<Self::Policy, Memory>
        requires ready { IsReady self.now }
        requires of_planner { IsFront self.now front.now }
        requires full { (space self.now).is_full (meaning self.now front.now) ≡ true }
        ensures policy { IfOk result (λ p. IsPolicy self.now p) }
        ensures worth { IfOk result (λ p.
            worth self.now p ≡ (space self.now).worth (meaning self.now front.now)) };

    /// A policy that may be good below a front that is neither full nor wide, if one was found: it is tried
    /// for the lower end alone, and no step of the tree comes of it.
    fn completion(
        &self,
        alloc: Global,
        room: &mut Self::Room,
        front: &Self::Front,
    ) -> Result<Option<Self::Policy>, Memory>
        requires ready { IsReady self.now }
        requires of_planner { IsFront self.now front.now }
        requires early { (space self.now).is_full (meaning self.now front.now) ≡ false }
        requires narrow { (above : ℕ) × ((space self.now).is_wide above (meaning self.now front.now) ≡ false) }
        requires room { IsRoom self.now room.old }
        ensures policy { IfOk result (λ o. IfSome o (λ p. IsPolicy self.now p)) }
        ensures room { OnOk result (IsRoom self.now room.new) };

    /// The step that is made at a front that is neither full nor wide, and the fronts after it.
    fn expand(
        &self,
        alloc: Global,
        room: &mut Self::Room,
        front: &Self::Front,
    ) -> Result<Expanded<Self::Front>, Memory>
        requires ready { IsReady self.now }
        requires of_planner { IsFront self.now front.now }
        requires early { (space self.now).is_full (meaning self.now front.now) ≡ false }
        requires narrow { (above : ℕ) × ((space self.now).is_wide above (meaning self.now front.now) ≡ false) }
        requires room { IsRoom self.now room.old }
        ensures of_planner { IfOk result (λ e. All (λ c. IsFront self.now c.front) e.children.items) }
        ensures allowed { IfOk result (λ e. (space self.now).May (meaning self.now front.now) e.step) }
        ensures fronts { IfOk result (λ e. map (λ c. meaning self.now c.front) e.children.items
            ≡ (space self.now).next (meaning self.now front.now) e.step) }
        ensures bounds { IfOk result (λ e. All (λ c. c.bound ≡ (space self.now).bound (meaning self.now c.front))
            e.children.items) }
        ensures some { IfOk result (λ e. HasChildren e.step (length e.children.items)) }
        ensures few { IfOk result (λ e. length e.children.items ≤ width self.now) }
        ensures room { OnOk result (IsRoom self.now room.new) };

    // a node with 2048 steps above it is wide, if it is not full
    ghost deep: { (p : Self) (above : ℕ) (F : Front) → (space p).is_full F ≡ false
        → (space p).is_wide above F ≡ false → above < 2048 };
}
