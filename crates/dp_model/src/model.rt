//! A model.
ghost use Rattle.std.specs.Prelude.{◌≡◌, ◌<◌, ◌≤◌, length, slice_index};
ghost use Rattle.dp_spec.specs.JointNumbers.{joint_number};
ghost use Rattle.dp_spec.specs.Mode.{greatest_magnitude};
ghost use Rattle.dp_spec.specs.Model.{IsModel, joint_actions, joint_observations, obs_at, reward_at};
ghost use Rattle.dp_spec.specs.Model.{start_at, trans_at};
ghost use Rattle.dp_model.specs.Parts.{AreParts, part_of};
ghost use Rattle.dp_model.specs.Tables.{AreNamesOf, model_of_tables};

use crate::numbering::Numbering;
use crate::{Cells, Names, Sizes};
use dp_spec::Scales;

/// A decentralised POMDP (Oliehoek and Amato, A Concise Introduction to Decentralized POMDPs,
/// chapter 2): sizes, scales and tables of whole numbers over them, with names.
///
/// Contracts see the model of the definitions, and the names. Every `Model` is one: each row of
/// chances sums to its scale, and the limits on sizes, cells and scales are kept.
#[derive(Drop)]
pub struct Model {
    states: u32,
    actions: Numbering,
    observations: Numbering,
    scales: Scales,
    cells: Cells,
    // The greatest magnitude of a reward.
    greatest_reward: u64,
    names: Names,
}

impl std::marker::Model for Model {
    ghost use Rattle.dp_model.specs.Tables.{IsStoredModel, NamedModel, model_of_tables};

    ghost Value = { NamedModel };

    ghost view = { λ m. record {
      model = model_of_tables (record { states = m.states; actions = m.actions; observations = m.observations })
          m.scales m.cells;
      names = m.names;
    } };

    ghost invariant = { λ m. IsStoredModel (record {
      model = model_of_tables (record { states = m.states; actions = m.actions; observations = m.observations })
          m.scales m.cells;
      names = m.names;
    }) m.greatest_reward };
}

impl Model {
    /// The model of these sizes, names, scales and tables. The number of agents is the length of
    /// both lists of sizes, and the tables are numbered as `Cells` says. It takes no memory.
    pub fn build(sizes: Sizes, names: Names, scales: Scales, cells: Cells) -> Model
        requires model { IsModel (model_of_tables sizes scales cells) }
        requires names { AreNamesOf (model_of_tables sizes scales cells) names }
        ensures { result ≡ record { model = model_of_tables sizes scales cells; names = names } }
    {
        let greatest_reward = greatest_magnitude(cells.reward.as_slice());
        Model {
            states: sizes.states,
            actions: Numbering::new(sizes.actions),
            observations: Numbering::new(sizes.observations),
            scales,
            cells,
            greatest_reward,
            names,
        }
    }

    /// What holds of all models. It does nothing.
    #[inline]
    pub fn invariant(&self)
        ensures model { IsModel self.now.model }
        ensures names { AreNamesOf self.now.model self.now.names }
    {
        let _ = &self.states;
    }

    /// How many agents there are.
    #[inline]
    pub fn agents(&self) -> u32
        ensures is { result ≡ length self.now.model.actions }
        ensures limit { result ≤ 6 }
    {
        self.actions.agents()
    }

    /// How many states there are.
    #[inline]
    pub fn states(&self) -> u32
        ensures is { result ≡ self.now.model.states }
        ensures limit { result ≤ 256 }
    {
        self.states
    }

    /// How many actions agent `i` has.
    #[inline]
    pub fn actions(&self, i: u32) -> u32
        requires { i < length self.now.model.actions }
        ensures { result ≡ slice_index self.now.model.actions i }
    {
        self.actions.size(i)
    }

    /// How many observations agent `i` has.
    #[inline]
    pub fn observations(&self, i: u32) -> u32
        requires { i < length self.now.model.observations }
        ensures { result ≡ slice_index self.now.model.observations i }
    {
        self.observations.size(i)
    }

    /// How many joint actions there are.
    #[inline]
    #[tactic(auto, unfolding(dp_spec::specs::Model::joint_actions))]
    pub fn joint_actions(&self) -> u32
        ensures is { result ≡ joint_actions self.now.model }
        ensures limit { result ≤ 256 }
    {
        self.actions.count()
    }

    /// How many joint observations there are.
    #[inline]
    #[tactic(auto, unfolding(dp_spec::specs::Model::joint_observations))]
    pub fn joint_observations(&self) -> u32
        ensures is { result ≡ joint_observations self.now.model }
        ensures limit { result ≤ 256 }
    {
        self.observations.count()
    }

    /// The chance to start in state `s`, over the scale `start`.
    #[inline]
    pub fn start(&self, s: u32) -> u64
        requires { s < self.now.model.states }
        ensures { result ≡ start_at self.now.model s }
    {
        self.cells.start.as_slice()[s as usize]
    }

    /// The chance of the next state `t` after joint action `a` in state `s`, over the scale
    /// `trans`.
    #[inline]
    pub fn trans(&self, a: u32, s: u32, t: u32) -> u64
        requires action { a < joint_actions self.now.model }
        requires state { s < self.now.model.states }
        requires next { t < self.now.model.states }
        ensures { result ≡ trans_at self.now.model a s t }
    {
        let states = self.states as usize;
        let row = a as usize * states + s as usize;
        self.cells.trans.as_slice()[row * states + t as usize]
    }

    /// The chance of joint observation `o` on arriving in state `t` by joint action `a`, over the
    /// scale `obs`.
    #[inline]
    pub fn obs(&self, a: u32, t: u32, o: u32) -> u64
        requires action { a < joint_actions self.now.model }
        requires next { t < self.now.model.states }
        requires observation { o < joint_observations self.now.model }
        ensures { result ≡ obs_at self.now.model a t o }
    {
        let row = a as usize * self.states as usize + t as usize;
        self.cells.obs.as_slice()[row * self.observations.count() as usize + o as usize]
    }

    /// The reward of joint action `a` in state `s` where state `t` and joint observation `o`
    /// follow, over the scale `reward`.
    #[inline]
    pub fn reward(&self, a: u32, s: u32, t: u32, o: u32) -> i64
        requires action { a < joint_actions self.now.model }
        requires state { s < self.now.model.states }
        requires next { t < self.now.model.states }
        requires observation { o < joint_observations self.now.model }
        ensures { result ≡ reward_at self.now.model a s t o }
    {
        let states = self.states as usize;
        let row = (a as usize * states + s as usize) * states + t as usize;
        self.cells.reward.as_slice()[row * self.observations.count() as usize + o as usize]
    }

    /// The greatest magnitude of a reward, over the scale `reward`.
    #[inline]
    pub(crate) fn greatest_reward(&self) -> u64
        ensures { result ≡ greatest_magnitude self.now.model.reward }
    {
        self.greatest_reward
    }

    /// The scales of the tables, and the discount.
    #[inline]
    pub fn scales(&self) -> Scales
        ensures { result ≡ self.now.model.scales }
    {
        self.scales
    }

    /// The names of the agents, the states, the actions and the observations.
    #[inline]
    pub fn names(&self) -> &Names
        ensures { result.now ≡ self.now.names }
    {
        &self.names
    }

    /// Agent `i`'s action in joint action `a`. Joint numbers are mixed radix with agent 0 most
    /// significant.
    #[inline]
    #[tactic(auto, unfolding(dp_spec::specs::Model::joint_actions))]
    pub fn local_action(&self, a: u32, i: u32) -> u32
        requires action { a < joint_actions self.now.model }
        requires agent { i < length self.now.model.actions }
        ensures { result ≡ part_of self.now.model.actions a i }
    {
        self.actions.part(a, i)
    }

    /// Agent `i`'s observation in joint observation `o`.
    #[inline]
    #[tactic(auto, unfolding(dp_spec::specs::Model::joint_observations))]
    pub fn local_obs(&self, o: u32, i: u32) -> u32
        requires observation { o < joint_observations self.now.model }
        requires agent { i < length self.now.model.observations }
        ensures { result ≡ part_of self.now.model.observations o i }
    {
        self.observations.part(o, i)
    }

    /// The joint action of one action for each agent.
    #[inline]
    pub fn joint_action_of(&self, parts: &[u32]) -> u32
        requires { AreParts self.now.model.actions parts.now }
        ensures { result ≡ joint_number self.now.model.actions parts.now }
    {
        self.actions.number_of(parts)
    }

    /// The joint observation of one observation for each agent.
    #[inline]
    pub fn joint_obs_of(&self, parts: &[u32]) -> u32
        requires { AreParts self.now.model.observations parts.now }
        ensures { result ≡ joint_number self.now.model.observations parts.now }
    {
        self.observations.number_of(parts)
    }
}

// The greatest magnitude of a list of numbers.
fn greatest_magnitude(numbers: &[i64]) -> u64
    ensures { result ≡ greatest_magnitude numbers.now }
{
    let mut greatest = 0;
    for number in numbers {
        greatest = number.unsigned_abs().max(greatest);
    }
    greatest
}
