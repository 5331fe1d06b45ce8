//! The next stage of a front.
ghost use Rattle.std.specs.Prelude.{◌≡◌, ℕ, suc, ◌+◌, ◌-◌, ◌*◌, ◌^◌, ◌<◌, ◌≤◌, ◌++◌, true, false, map, length, IfOk};
ghost use Rattle.std.specs.List.{range_with_len};
ghost use Rattle.dp_spec.specs.Arithmetic.{arithmetic};
ghost use Rattle.dp_spec.specs.Front.{class_counts, fixed_joint_action};
ghost use Rattle.dp_spec.specs.JointNumbers.{product};
ghost use Rattle.dp_spec.specs.Model.{joint_actions, joint_observations};
ghost use Rattle.dp_spec.specs.Quantities.{class_weight_in, earned_reward_in, weighted_reward_in, weights_after_in};
ghost use Rattle.dp_spec.specs.Steps.{advanced_agents, advanced_front, is_complete};
ghost use Rattle.dp_spec.specs.WellFormed.{IsFront};
ghost use Rattle.dp_spec.specs.Zeros.{KeepsZero, nothing};
ghost use Rattle.dp_spec.specs.ClassSteps.{chosen_joint_action, pair_number};
ghost use Rattle.dp_value.specs.WeightUpdates.{AreUpdatable, weights_of};
ghost use Rattle.dp_cluster.specs.Advances.{AreLed, IsAdvanceable, IsLed, weight_rows};
ghost use Rattle.dp_spec.specs.Wide.{has_room};
ghost use Rattle.dp_cluster.specs.KeepingPolicies.{KeepsToo};
ghost use Rattle.dp_cluster.specs.KeptFronts.{IsFrontOf, kept_weight, part_fronts, part_observations, part_past};
ghost use Rattle.dp_cluster.specs.PastClasses.{past_after};

use crate::Front;
use crate::part::AgentPart;
use dp_base::Memory;
use dp_model::Model;
use dp_num::{Arith, Exact, Outward, add_spans};
use dp_spec::Span;
use dp_value::{next_weight, weighted_reward};
use std::alloc::Global;
use std::rc::Rc;

impl Front {
    /// The front at the next stage, where every class has an action: class `c` followed by observation
    /// `o` becomes class `c * O + o`, for the agent's `O` observations.
    pub fn advance(&self, alloc: Global, m: &Model) -> Result<Front, Memory>
        requires of_model { IsFrontOf m.now.model self.now }
        requires stage { self.now.front.stage < self.now.horizon }
        requires complete { is_complete self.now.front.agents ≡ true }
        requires room { has_room m.now.model self.now.horizon (advanced_front m.now.model self.now.front) ≡ true }
        ensures front { IfOk result (λ f. f.front ≡ advanced_front m.now.model self.now.front) }
        ensures horizon { IfOk result (λ f. f.horizon ≡ self.now.horizon) }
        ensures past { IfOk result (λ f. f.past ≡ past_after self.now.front.agents self.now.past) }
        ensures of_model { IfOk result (λ f. IsFrontOf m.now.model f) }
        ensures keeps { IfOk result (λ f. KeepsToo m.now.model self.now.front f.front) }
    {
        m.invariant();
        self.invariant();
        let actions = led_actions(alloc, self, m)?;
        let earned = earned_in(self, m, &actions);
        let weights = weights_in(alloc, self, m, &actions)?;
        let agents = advanced_parts(alloc, self, m)?;
        Ok(self.next(agents, Rc::new(alloc, weights)?, earned))
    }
}

// The parts of the agents at the next stage.
fn advanced_parts(alloc: Global, front: &Front, m: &Model) -> Result<Vec<Rc<AgentPart>>, Memory>
    requires of_model { IsFrontOf m.now.model front.now }
    requires stage { front.now.front.stage < front.now.horizon }
    ensures fronts { IfOk result (λ v. part_fronts (map (λ p. p.value) v.items) ≡
        advanced_agents m.now.model.observations front.now.front.stage front.now.front.agents) }
    ensures observations { IfOk result (λ v. part_observations (map (λ p. p.value) v.items) ≡
        m.now.model.observations) }
    ensures past { IfOk result (λ v. part_past (map (λ p. p.value) v.items) ≡
        past_after front.now.front.agents front.now.past) }
{
    front.invariant();
    let mut all = Vec::new(alloc);
    for agent in 0..front.agents() {
        let part = front.part(agent).advanced(alloc)?;
        all.push(Rc::new(alloc, part)?)?;
    }
    Ok(all)
}

// What is earned before the next stage, in the arithmetic of the front's mode.
fn earned_in(front: &Front, m: &Model, actions: &[Option<u32>]) -> Span
    requires of_model { IsFrontOf m.now.model front.now }
    requires stage { front.now.front.stage < front.now.horizon }
    requires actions { AreLed m.now.model front.now actions.now }
    ensures { result ≡ earned_reward_in (arithmetic front.now.is_exact m.now.model.scales) m.now.model
        (fixed_joint_action m.now.model (advanced_front m.now.model front.now.front)) front.now.horizon
        (suc front.now.front.stage) }
{
    front.invariant();
    if front.is_exact() {
        earned_after(&Exact::of(m.scales()), front, m, actions)
    } else {
        earned_after(&Outward::of(m.scales()), front, m, actions)
    }
}

// What is earned before the next stage.
fn earned_after<A: Arith>(arith: &A, front: &Front, m: &Model, actions: &[Option<u32>]) -> Span
    requires sizes { IsAdvanceable (A.operations arith.now) (A.calls arith.now) m.now.model front.now }
    requires actions { AreLed m.now.model front.now actions.now }
    ensures { result ≡ earned_reward_in (A.operations arith.now) m.now.model
        (fixed_joint_action m.now.model (advanced_front m.now.model front.now.front)) front.now.horizon
        (suc front.now.front.stage) }
{
    m.invariant();
    let rest = front.horizon() - front.stage() - 1;
    let mut total = front.earned();
    for class in 0..front.joint_classes() {
        total = add_spans(
            total,
            earned_from(arith, front, m, class, actions[class], rest),
        );
    }
    total
}

// What is earned from a joint class, where `rest` steps are left after this one.
fn earned_from<A: Arith>(
    arith: &A,
    front: &Front,
    m: &Model,
    class: usize,
    action: Option<u32>,
    rest: u32,
) -> Span
    requires sizes { IsAdvanceable (A.operations arith.now) (A.calls arith.now) m.now.model front.now }
    requires class { class < product (class_counts front.now.front.agents) }
    requires action { IsLed m.now.model front.now class action }
    requires rest { front.now.front.stage + suc rest ≡ front.now.horizon }
    ensures { result ≡ weighted_reward_in (A.operations arith.now) m.now.model rest
        (class_weight_in (A.operations arith.now) m.now.model front.now.front class)
        (chosen_joint_action m.now.model front.now.front class) }
{
    match action {
        None => Span { low: 0, high: 0 },
        Some(action) => weighted_reward(arith, m, front.class_weights(class), action, rest),
    }
}

// The weights of the joint classes of the next stage, in the arithmetic of the front's mode; none at the
// horizon.
fn weights_in(
    alloc: Global,
    front: &Front,
    m: &Model,
    actions: &[Option<u32>],
) -> Result<Vec<Span>, Memory>
    requires of_model { IsFrontOf m.now.model front.now }
    requires stage { front.now.front.stage < front.now.horizon }
    requires actions { AreLed m.now.model front.now actions.now }
    requires room { suc front.now.front.stage < front.now.horizon →
        product (class_counts front.now.front.agents) * joint_observations m.now.model * m.now.model.states ≤ 2 ^ 22 }
    ensures { IfOk result (λ v. suc front.now.front.stage < front.now.horizon → v.items ≡
        weight_rows (class_weight_in (arithmetic front.now.is_exact m.now.model.scales) m.now.model
        (advanced_front m.now.model front.now.front))
        m.now.model.states (product (class_counts front.now.front.agents) * joint_observations m.now.model)) }
{
    front.invariant();
    if front.stage() + 1 == front.horizon() {
        Ok(Vec::new(alloc))
    } else if front.is_exact() {
        weights_after(alloc, &Exact::of(m.scales()), front, m, actions)
    } else {
        weights_after(alloc, &Outward::of(m.scales()), front, m, actions)
    }
}

// The weights of the joint classes of the next stage.
fn weights_after<A: Arith>(
    alloc: Global,
    arith: &A,
    front: &Front,
    m: &Model,
    actions: &[Option<u32>],
) -> Result<Vec<Span>, Memory>
    requires sizes { IsAdvanceable (A.operations arith.now) (A.calls arith.now) m.now.model front.now }
    requires actions { AreLed m.now.model front.now actions.now }
    requires room { product (class_counts front.now.front.agents) * joint_observations m.now.model *
        m.now.model.states ≤ 2 ^ 22 }
    ensures { IfOk result (λ v. v.items ≡
        weight_rows (class_weight_in (A.operations arith.now) m.now.model
        (advanced_front m.now.model front.now.front))
        m.now.model.states (product (class_counts front.now.front.agents) * joint_observations m.now.model)) }
{
    m.invariant();
    let count = front.joint_classes() * m.joint_observations() as usize;
    let mut weights = Vec::new(alloc);
    for next in 0..count {
        let Pair { class, seen } = pair_of(front, m, count, next);
        push_weights(arith, front, m, class, actions[class], seen, &mut weights)?;
    }
    Ok(weights)
}

// Adds the weights of the joint class that a joint class and a joint observation lead to, one for each
// state.
fn push_weights<A: Arith>(
    arith: &A,
    front: &Front,
    m: &Model,
    class: usize,
    action: Option<u32>,
    seen: u32,
    weights: &mut Vec<Span>,
) -> Result<(), Memory>
    requires sizes { IsAdvanceable (A.operations arith.now) (A.calls arith.now) m.now.model front.now }
    requires class { class < product (class_counts front.now.front.agents) }
    requires action { IsLed m.now.model front.now class action }
    requires seen { seen < joint_observations m.now.model }
    ensures { IfOk result (λ _. weights.new.items ≡ weights.old.items ++ map
        (class_weight_in (A.operations arith.now) m.now.model (advanced_front m.now.model front.now.front)
        (pair_number (class_counts front.now.front.agents) m.now.model.observations class seen))
        (range_with_len 0 m.now.model.states)) }
{
    match action {
        None => push_nothing(m.states(), weights),
        Some(action) => push_nexts(arith, front, m, class, action, seen, weights),
    }
}

// Adds weights of 0.
fn push_nothing(count: u32, weights: &mut Vec<Span>) -> Result<(), Memory>
    ensures { IfOk result (λ _. weights.new.items ≡ weights.old.items ++ map (λ s. nothing) (range_with_len 0
        count)) }
{
    for _ in 0..count {
        weights.push(Span { low: 0, high: 0 })?;
    }
    Ok(())
}

// Adds the weights of the joint class that a joint class and a joint observation lead to, by the joint
// action that is chosen for the joint class.
fn push_nexts<A: Arith>(
    arith: &A,
    front: &Front,
    m: &Model,
    class: usize,
    action: u32,
    seen: u32,
    weights: &mut Vec<Span>,
) -> Result<(), Memory>
    requires sizes { IsAdvanceable (A.operations arith.now) (A.calls arith.now) m.now.model front.now }
    requires class { class < product (class_counts front.now.front.agents) }
    requires action { action ≡ chosen_joint_action m.now.model front.now.front class }
    requires seen { seen < joint_observations m.now.model }
    ensures { IfOk result (λ _. weights.new.items ≡ weights.old.items ++ map
        (class_weight_in (A.operations arith.now) m.now.model (advanced_front m.now.model front.now.front)
        (pair_number (class_counts front.now.front.agents) m.now.model.observations class seen))
        (range_with_len 0 m.now.model.states)) }
{
    let before = front.class_weights(class);
    for state in 0..m.states() {
        weights.push(weight_after(arith, m, before, action, seen, state))?;
    }
    Ok(())
}

// The weight of a state after a joint action and a joint observation. A joint observation of chance 0 takes
// no sum.
fn weight_after<A: Arith>(
    arith: &A,
    m: &Model,
    weights: &[Span],
    action: u32,
    seen: u32,
    state: u32,
) -> Span
    requires zeros { KeepsZero (A.operations arith.now) }
    requires one_each { length weights.now ≡ m.now.model.states }
    requires sizes { AreUpdatable (A.operations arith.now) (A.calls arith.now) m.now.model (weights_of weights.now) }
    requires action { action < joint_actions m.now.model }
    requires seen { seen < joint_observations m.now.model }
    requires state { state < m.now.model.states }
    ensures { result ≡ weights_after_in (A.operations arith.now) m.now.model (weights_of weights.now) action seen
        state }
{
    if m.obs(action, state, seen) == 0 {
        return Span { low: 0, high: 0 };
    }
    next_weight(arith, m, weights, action, seen, state)
}

// A joint class, and the joint observation that follows it.
#[derive(Clone, Copy)]
struct Pair {
    class: usize,
    seen: u32,
}

// The joint class and the joint observation that lead to joint class `next` of the next stage, which has
// `count` joint classes.
fn pair_of(front: &Front, m: &Model, count: usize, next: usize) -> Pair
    requires stage { front.now.front.stage < front.now.horizon }
    requires states { front.now.states ≡ m.now.model.states }
    requires observations { front.now.observations ≡ m.now.model.observations }
    requires agents { length front.now.front.agents ≡ length m.now.model.observations }
    requires count { count ≡ product (class_counts front.now.front.agents) * joint_observations m.now.model }
    requires limit { count ≤ 2 ^ 22 }
    requires next { next < count }
    ensures class { result.class < product (class_counts front.now.front.agents) }
    ensures seen { result.seen < joint_observations m.now.model }
    ensures number { pair_number (class_counts front.now.front.agents) m.now.model.observations
        result.class result.seen ≡ next }
{
    let mut left = count;
    let mut rest = next;
    let mut pair = Pair { class: 0, seen: 0 };
    for agent in 0..front.agents() {
        let classes = front.classes(agent) as usize;
        let observations = front.part(agent).observations();
        left = left / (classes * observations as usize);
        let own = rest / left;
        rest = rest % left;
        pair = Pair {
            class: pair.class * classes + own / observations as usize,
            seen: pair.seen * observations + (own % observations as usize) as u32,
        };
    }
    pair
}

// The joint action of each joint class, or none where the joint class has no weight: such a joint class
// earns nothing, and leads to none with weight.
fn led_actions(alloc: Global, front: &Front, m: &Model) -> Result<Vec<Option<u32>>, Memory>
    requires front { IsFront m.now.model front.now.horizon front.now.front }
    requires stage { front.now.front.stage < front.now.horizon }
    requires some { 0 < front.now.states }
    ensures { IfOk result (λ v. AreLed m.now.model front.now v.items) }
{
    let mut actions = Vec::new(alloc);
    for class in 0..front.joint_classes() {
        actions.push(led_action(front, m, class))?;
    }
    Ok(actions)
}

// The joint action of a joint class, or none where it has no weight.
fn led_action(front: &Front, m: &Model, class: usize) -> Option<u32>
    requires front { IsFront m.now.model front.now.horizon front.now.front }
    requires stage { front.now.front.stage < front.now.horizon }
    requires some { 0 < front.now.states }
    requires class { class < product (class_counts front.now.front.agents) }
    ensures { IsLed m.now.model front.now class result }
{
    if are_nothing(front.class_weights(class)) {
        None
    } else {
        Some(action_of(front, m, class))
    }
}

// Whether all weights are 0.
fn are_nothing(weights: &[Span]) -> bool
    ensures yes { result ≡ true → (s : ℕ) → s < length weights.now → weights_of weights.now s ≡ nothing }
    ensures no { ((s : ℕ) → s < length weights.now → weights_of weights.now s ≡ nothing) → result ≡ true }
{
    for weight in weights {
        if weight.low != 0 || weight.high != 0 {
            return false;
        }
    }
    true
}

// The joint action that is chosen for a joint class.
fn action_of(front: &Front, m: &Model, class: usize) -> u32
    requires front { IsFront m.now.model front.now.horizon front.now.front }
    requires stage { front.now.front.stage < front.now.horizon }
    requires some { 0 < front.now.states }
    requires class { class < product (class_counts front.now.front.agents) }
    ensures is { result ≡ chosen_joint_action m.now.model front.now.front class }
    ensures action { result < joint_actions m.now.model }
{
    m.invariant();
    let mut left = front.joint_classes();
    let mut rest = class;
    let mut action = 0;
    for agent in 0..front.agents() {
        left = left / front.classes(agent) as usize;
        let own = (rest / left) as u32;
        rest = rest % left;
        action = action * m.actions(agent) + front.action(agent, own).unwrap_or(0);
    }
    action
}
