//! Whether a shared policy is plain: one row for each own history.
ghost use Rattle.std.specs.Prelude.{◌≡◌, ℕ, ◌+◌, ◌*◌, ◌^◌, ◌<◌, ◌≤◌, ◌↔◌, [], IsTrue, suc, length, get_or};
ghost use Rattle.dp_spec.specs.PlainForm.{ArePlainRows, IsPlain};
ghost use Rattle.dp_spec.specs.SharedPolicy.{IsSharedOf, row_at, row_count};
ghost use Rattle.dp_policy.specs.SharedRows.{IsPlainStage};

use crate::Shared;
use dp_model::Model;

impl Shared {
    /// Whether this is the plain form of a joint policy of a model over the policy's horizon: the rows are
    /// a shared policy of the model with one row for each own history, in the order of their numbers, and
    /// they go on as own histories do. It takes no memory.
    pub fn is_plain(&self, model: &Model) -> bool
        ensures { IsTrue result ↔
            (IsSharedOf model.now.model self.now.horizon self.now.rows
            × IsPlain model.now.model self.now.horizon self.now.rows) }
    {
        self.fits_model(model) && self.are_agents_plain(model)
    }

    // Whether the rows of each agent are plain.
    fn are_agents_plain(&self, model: &Model) -> bool
        requires policy { IsSharedOf model.now.model self.now.horizon self.now.rows }
        ensures { IsTrue result ↔ IsPlain model.now.model self.now.horizon self.now.rows }
    {
        model.invariant();
        for agent in 0..self.agents() {
            if !self.is_agent_plain(agent, model.observations(agent)) {
                return false;
            }
        }
        true
    }

    // Whether the rows of an agent are, whose rows before the last stage all go on after so many observations.
    fn is_agent_plain(&self, agent: u32, observations: u32) -> bool
        requires agent { agent < length self.now.rows }
        requires few { observations ≤ 256 }
        requires nexts { (t r : ℕ) → suc t < self.now.horizon →
            r < row_count (get_or self.now.rows agent []) t →
            length (row_at (get_or self.now.rows agent []) t r).next ≡ observations }
        ensures { IsTrue result ↔ ArePlainRows observations self.now.horizon (get_or self.now.rows agent []) }
    {
        let mut count = 1;
        for stage in 0..self.horizon() {
            if !self.is_stage_plain(agent, stage, observations, count) {
                return false;
            }
            count *= u64::from(observations);
        }
        true
    }

    // Whether a stage has so many rows, and they go on as own histories do.
    fn is_stage_plain(&self, agent: u32, stage: u32, observations: u32, count: u64) -> bool
        requires agent { agent < length self.now.rows }
        requires stage { stage < self.now.horizon }
        requires few { observations ≤ 256 }
        requires nexts { (r : ℕ) → suc stage < self.now.horizon →
            r < row_count (get_or self.now.rows agent []) stage →
            length (row_at (get_or self.now.rows agent []) stage r).next ≡ observations }
        ensures is { IsTrue result ↔
            IsPlainStage observations self.now.horizon stage count (get_or self.now.rows agent []) }
        ensures limit { IsTrue result → count ≤ 2 ^ 22 }
    {
        if u64::from(self.rows(agent, stage)) != count {
            return false;
        }
        self.horizon() == stage + 1 || self.goes_on_plainly(agent, stage, observations)
    }

    // Whether the rows of a stage before the last go on as own histories do.
    fn goes_on_plainly(&self, agent: u32, stage: u32, observations: u32) -> bool
        requires agent { agent < length self.now.rows }
        requires stage { suc stage < self.now.horizon }
        requires few { observations ≤ 256 }
        requires nexts { (r : ℕ) → r < row_count (get_or self.now.rows agent []) stage →
            length (row_at (get_or self.now.rows agent []) stage r).next ≡ observations }
        ensures { IsTrue result ↔ ((r o : ℕ) → r < row_count (get_or self.now.rows agent []) stage →
            o < observations →
            get_or (row_at (get_or self.now.rows agent []) stage r).next o 0 ≡ r * observations + o) }
    {
        for row in 0..self.rows(agent, stage) {
            let nexts = self.nexts_of(agent, stage, row);
            if !are_counted_from(nexts, row * observations) {
                return false;
            }
        }
        true
    }
}

// Whether these are the numbers from the first one on.
fn are_counted_from(numbers: &[u32], first: u32) -> bool
    requires few { length numbers.now ≤ 256 }
    requires first { first ≤ 2 ^ 31 }
    ensures { IsTrue result ↔ ((o : ℕ) → o < length numbers.now → get_or numbers.now o 0 ≡ first + o) }
{
    for place in 0..numbers.len() {
        if numbers[place] != first + place as u32 {
            return false;
        }
    }
    true
}
