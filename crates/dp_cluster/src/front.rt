//! A front.
ghost use Rattle.std.specs.Prelude.{◌≡◌, ◌<◌, ◌≤◌, ◌^◌, [], ℕ, suc, true, map, set, length, get_or, IfOk};
ghost use Rattle.std.specs.List.{range_with_len};
ghost use Rattle.dp_spec.specs.Arithmetic.{arithmetic};
ghost use Rattle.dp_spec.specs.Front.{AgentFront, class_counts, fixed_joint_action};
ghost use Rattle.dp_spec.specs.JointNumbers.{joint_number, product};
ghost use Rattle.dp_spec.specs.Model.{Model as PlainModel, start_at};
ghost use Rattle.dp_spec.specs.Merge.{merged_front};
ghost use Rattle.dp_spec.specs.Mode.{IsTrueFit, is_exact_mode};
ghost use Rattle.dp_spec.specs.Quantities.{class_weight_in, earned_reward_in};
ghost use Rattle.dp_spec.specs.Steps.{IsUnassigned, chosen_front, is_complete, root_front};
ghost use Rattle.dp_model.specs.Parts.{AreParts};
ghost use Rattle.dp_value.specs.WeightUpdates.{weights_of};
ghost use Rattle.dp_cluster.specs.AgentParts.{root_part};
ghost use Rattle.dp_cluster.specs.KeepingPolicies.{KeepsSomeChoice};
ghost use Rattle.dp_cluster.specs.KeptFronts.{IsFrontOf, IsStored, choice_at, kept_front, kept_weight};

use crate::join::joined_weights;
use crate::part::AgentPart;
use crate::shared::{replaced, shared};
use dp_base::Memory;
use dp_model::{Fit, Model};
use dp_num::{Arith, Exact, Outward};
use dp_spec::Span;
use std::alloc::Global;
use std::rc::Rc;

/// A partial joint policy: what is fixed before its stage, for each agent classes of own histories with
/// their actions or none, and the weight of each joint class and state.
///
/// Contracts see the front of the definitions, with its horizon and mode, the classes of each agent at
/// each earlier stage, and the weights and the earned reward that are kept. `IsFrontOf` says that these
/// are those of a model. No list of histories is kept.
#[derive(Drop)]
pub struct Front {
    horizon: u32,
    exact: bool,
    states: u32,
    stage: u32,
    agents: Vec<Rc<AgentPart>>,
    // Joint class by joint class, agent 0 most significant, one for each state; none at the horizon.
    weights: Rc<Vec<Span>>,
    earned: Span,
}

impl std::marker::Model for Front {
    ghost use Rattle.std.specs.Prelude.{map};
    ghost use Rattle.dp_cluster.specs.KeptFronts.{IsStored, KeptFront, kept_front};

    ghost Value = { KeptFront };

    ghost view = { λ f. kept_front f.horizon f.exact f.states f.stage
        (map (λ p. p.value) f.agents.items) f.weights.value.items f.earned };

    ghost invariant = { λ f. IsStored (kept_front f.horizon f.exact f.states f.stage
        (map (λ p. p.value) f.agents.items) f.weights.value.items f.earned) };
}

impl Front {
    /// The root front: nothing is fixed, and each agent has one class, which holds the empty history.
    pub fn root(alloc: Global, m: &Model, fit: Fit) -> Result<Front, Memory>
        requires { IsTrueFit m.now.model fit.horizon fit.exact fit.unit }
        ensures front { IfOk result (λ f. f.front ≡ root_front m.now.model) }
        ensures horizon { IfOk result (λ f. f.horizon ≡ fit.horizon) }
        ensures of_model { IfOk result (λ f. IsFrontOf m.now.model f) }
    {
        m.invariant();
        let weights = start_weights_in(alloc, m, fit.horizon, fit.exact)?;
        Ok(Front {
            horizon: fit.horizon,
            exact: fit.exact,
            states: m.states(),
            stage: 0,
            agents: root_parts(alloc, m)?,
            weights: Rc::new(alloc, weights)?,
            earned: Span { low: 0, high: 0 },
        })
    }

    /// How many steps are fixed.
    #[inline]
    pub fn stage(&self) -> u32
        ensures { result ≡ self.now.front.stage }
    {
        self.stage
    }

    /// How many classes an agent has.
    #[inline]
    pub fn classes(&self, agent: u32) -> u32
        requires { agent < length self.now.front.agents }
        ensures { result ≡ get_or (class_counts self.now.front.agents) agent 0 }
    {
        self.part(agent).classes()
    }

    /// The action of a class, or none.
    #[inline]
    pub fn action(&self, agent: u32, class: u32) -> Option<u32>
        requires agent { agent < length self.now.front.agents }
        requires class { class < get_or (class_counts self.now.front.agents) agent 0 }
        ensures { result ≡ choice_at self.now.front.agents agent class }
    {
        self.part(agent).action(class)
    }

    /// Whether every class of every agent has an action.
    pub fn complete(&self) -> bool
        ensures { result ≡ is_complete self.now.front.agents }
    {
        for agent in 0..self.agents() {
            if !self.part(agent).complete() {
                return false;
            }
        }
        true
    }

    /// The weight of a joint class, one class for each agent, and a state.
    pub fn weight(&self, classes: &[u32], s: u32) -> Span
        requires stage { self.now.front.stage < self.now.horizon }
        requires classes { AreParts (class_counts self.now.front.agents) classes.now }
        requires state { s < self.now.states }
        ensures kept { result ≡ kept_weight self.now
            (joint_number (class_counts self.now.front.agents) classes.now) s }
        ensures is { (m : PlainModel) → IsFrontOf m self.now → result ≡
            class_weight_in (arithmetic self.now.is_exact m.scales) m
            self.now.front (joint_number (class_counts self.now.front.agents) classes.now) s }
    {
        self.invariant();
        let joint = self.joint_class(classes);
        self.weights()[joint * self.states() as usize + s as usize]
    }

    // The number of a joint class.
    #[inline]
    fn joint_class(&self, classes: &[u32]) -> usize
        requires stage { self.now.front.stage < self.now.horizon }
        requires classes { AreParts (class_counts self.now.front.agents) classes.now }
        requires some { 0 < self.now.states }
        ensures { result ≡ joint_number (class_counts self.now.front.agents) classes.now }
    {
        self.invariant();
        let mut joint: usize = 0;
        for agent in 0..self.agents() {
            let count = self.classes(agent) as usize;
            joint = joint * count + classes[agent as usize] as usize;
        }
        joint
    }

    /// What is earned before the stage.
    #[inline]
    pub fn earned(&self) -> Span
        ensures kept { result ≡ self.now.earned }
        ensures is { (m : PlainModel) → IsFrontOf m self.now → result ≡
            earned_reward_in (arithmetic self.now.is_exact m.scales) m
            (fixed_joint_action m self.now.front) self.now.horizon self.now.front.stage }
    {
        self.earned
    }

    /// The front after an action is chosen for an unassigned class. All but that agent's choices is shared.
    pub fn assign(
        &self,
        alloc: Global,
        agent: u32,
        class: u32,
        action: u32,
    ) -> Result<Front, Memory>
        requires stage { self.now.front.stage < self.now.horizon }
        requires unassigned { IsUnassigned agent class self.now.front.agents }
        ensures is { IfOk result (λ f. f ≡
            record self.now { front = chosen_front self.now.front agent class action }) }
        ensures of_model { IfOk result (λ f. (m : PlainModel) → IsFrontOf m self.now →
            action < get_or m.actions agent 0 → IsFrontOf m f) }
        ensures keeps { IfOk result (λ _. (m : PlainModel) → IsFrontOf m self.now →
            KeepsSomeChoice m self.now.horizon self.now.front agent class) }
    {
        let part = self.part(agent).with_choice(alloc, class, action)?;
        let parts: &[Rc<AgentPart>] = &self.agents;
        Ok(Front {
            horizon: self.horizon,
            exact: self.exact,
            states: self.states,
            stage: self.stage,
            agents: replaced(alloc, parts, agent as usize, part)?,
            weights: self.weights.clone()?,
            earned: self.earned,
        })
    }

    // The front after class `second` of an agent was joined into class `first`, whether or not the two are
    // equivalent, in exact mode.
    pub(crate) fn joined(
        &self,
        alloc: Global,
        agent: u32,
        first: u32,
        second: u32,
    ) -> Result<Front, Memory>
        requires of_model { (m : PlainModel) × (IsFrontOf m self.now) }
        requires exact { self.now.is_exact ≡ true }
        requires stage { self.now.front.stage < self.now.horizon }
        requires order { first < second }
        requires first { IsUnassigned agent first self.now.front.agents }
        requires second { IsUnassigned agent second self.now.front.agents }
        ensures front { IfOk result (λ f. f.front ≡ merged_front self.now.front agent first second) }
        ensures horizon { IfOk result (λ f. f.horizon ≡ self.now.horizon) }
        ensures past { IfOk result (λ f. f.past ≡ self.now.past) }
        ensures of_model { IfOk result (λ f. (m : PlainModel) → IsFrontOf m self.now → IsFrontOf m f) }
    {
        let weights = joined_weights(alloc, self, agent, first, second)?;
        let part = self.part(agent).merged(alloc, first, second)?;
        let parts: &[Rc<AgentPart>] = &self.agents;
        Ok(Front {
            horizon: self.horizon,
            exact: self.exact,
            states: self.states,
            stage: self.stage,
            agents: replaced(alloc, parts, agent as usize, part)?,
            weights: Rc::new(alloc, weights)?,
            earned: self.earned,
        })
    }

    /// How many agents there are.
    #[inline]
    pub fn agents(&self) -> u32
        ensures { result ≡ length self.now.front.agents }
    {
        let parts: &[Rc<AgentPart>] = &self.agents;
        parts.len() as u32
    }

    // The part of an agent.
    #[inline]
    pub(crate) fn part(&self, agent: u32) -> &AgentPart
        requires { agent < length self.now.front.agents }
        ensures front { (d : AgentFront) → get_or self.now.front.agents agent d ≡ result.now.front }
        ensures observations { get_or self.now.observations agent 0 ≡ result.now.observations }
        ensures past { get_or self.now.past agent [] ≡ result.now.past }
    {
        let parts: &[Rc<AgentPart>] = &self.agents;
        parts[agent as usize].as_ref()
    }

    // The weights, joint class by joint class, one for each state.
    #[inline]
    pub(crate) fn weights(&self) -> &[Span]
        ensures { result.now ≡ self.now.weights }
    {
        self.weights.as_ref().as_slice()
    }

    /// How many joint classes there are.
    #[inline]
    pub fn joint_classes(&self) -> usize
        requires stage { self.now.front.stage < self.now.horizon }
        requires some { 0 < self.now.states }
        ensures is { result ≡ product (class_counts self.now.front.agents) }
        ensures limit { result ≤ 2 ^ 22 }
    {
        self.invariant();
        self.weights().len() / self.states() as usize
    }

    /// The weights of a joint class, one for each state.
    #[inline]
    pub fn class_weights(&self, class: usize) -> &[Span]
        requires stage { self.now.front.stage < self.now.horizon }
        requires class { class < product (class_counts self.now.front.agents) }
        ensures one_each { length result.now ≡ self.now.states }
        ensures are { (s : ℕ) → s < self.now.states → weights_of result.now s ≡ kept_weight self.now class s }
    {
        self.invariant();
        let states = self.states() as usize;
        let weights = self.weights();
        &weights[class * states..class * states + states]
    }

    // The front at the next stage, of these parts, weights and earned reward.
    pub(crate) fn next(
        &self,
        agents: Vec<Rc<AgentPart>>,
        weights: Rc<Vec<Span>>,
        earned: Span,
    ) -> Front
        requires stage { self.now.front.stage < self.now.horizon }
        requires horizon { self.now.horizon ≤ 24 }
        requires stored { IsStored (kept_front self.now.horizon self.now.is_exact self.now.states
            (suc self.now.front.stage)
            (map (λ p. p.value) agents.items) weights.value.items earned) }
        ensures { result ≡ kept_front self.now.horizon self.now.is_exact self.now.states (suc self.now.front.stage)
            (map (λ p. p.value) agents.items) weights.value.items earned }
    {
        Front {
            horizon: self.horizon,
            exact: self.exact,
            states: self.states,
            stage: self.stage + 1,
            agents,
            weights,
            earned,
        }
    }

    /// How many states there are.
    #[inline]
    pub fn states(&self) -> u32
        ensures { result ≡ self.now.states }
    {
        self.states
    }

    /// How many steps a policy has.
    #[inline]
    pub fn horizon(&self) -> u32
        ensures { result ≡ self.now.horizon }
    {
        self.horizon
    }

    /// Whether the mode is exact.
    #[inline]
    pub fn is_exact(&self) -> bool
        ensures { result ≡ self.now.is_exact }
    {
        self.exact
    }

    /// What holds of every front. It does nothing.
    #[inline]
    pub fn invariant(&self)
        ensures { IsStored self.now }
    {
        let _ = &self.stage;
    }
}

// The parts of the root front.
fn root_parts(alloc: Global, m: &Model) -> Result<Vec<Rc<AgentPart>>, Memory>
    ensures { IfOk result (λ v. map (λ p. p.value) v.items ≡ map root_part m.now.model.observations) }
{
    m.invariant();
    let mut agents = Vec::new(alloc);
    for agent in 0..m.agents() {
        agents.push(Rc::new(alloc, AgentPart::root(alloc, m.observations(agent)))?)?;
    }
    Ok(agents)
}

// The weights of the start.
fn start_weights<A: Arith>(alloc: Global, arith: &A, m: &Model) -> Result<Vec<Span>, Memory>
    requires { (s : ℕ) → s < m.now.model.states → (A.calls arith.now).Start (start_at m.now.model s) }
    ensures { IfOk result (λ v. v.items ≡
        map (λ s. (A.operations arith.now).start (start_at m.now.model s)) (range_with_len 0 m.now.model.states)) }
{
    let mut weights = Vec::new(alloc);
    for s in 0..m.states() {
        weights.push(arith.start(m.start(s)))?;
    }
    Ok(weights)
}

// The weights of the start, in the arithmetic of a mode.
fn start_weights_in(
    alloc: Global,
    m: &Model,
    horizon: u32,
    exact: bool,
) -> Result<Vec<Span>, Memory>
    requires some_step { 0 < horizon }
    requires horizon { horizon ≤ 24 }
    requires mode { exact ≡ is_exact_mode m.now.model horizon }
    ensures { IfOk result (λ v. v.items ≡
        map (λ s. (arithmetic exact m.now.model.scales).start (start_at m.now.model s))
        (range_with_len 0 m.now.model.states)) }
{
    m.invariant();
    if exact {
        start_weights(alloc, &Exact::of(m.scales()), m)
    } else {
        start_weights(alloc, &Outward::of(m.scales()), m)
    }
}
