ghost use Rattle.std.specs.Prelude.{◌≡◌, ℕ, ◌^◌, ◌<◌, ◌≤◌, ◌↔◌, [], IsTrue, length, map, get_or};
ghost use Rattle.dp_spec.specs.PolicyTree.{root_action};
ghost use Rattle.dp_spec.specs.SharedPolicy.{IsSharedOf, row_at, row_count, unfolded_tree};
ghost use Rattle.dp_policy.specs.SharedRows.{AreKept, remaining_after};

use crate::Row;
use crate::joined_rows::is_shared;

/// A shared policy: for each agent and each stage its rows, over a horizon. Own histories after which
/// an agent goes on alike may share one row.
///
/// Contracts see the rows of the definitions, and the horizon.
#[derive(Drop)]
pub struct Shared {
    horizon: u32,
    rows: Vec<Vec<Vec<Row>>>,
}

impl std::marker::Model for Shared {
    ghost use Rattle.std.specs.Prelude.{map};
    ghost use Rattle.dp_policy.specs.SharedRows.{HorizonRows, AreKept};

    ghost Value = { HorizonRows };

    ghost view = { λ p. record {
      horizon = p.horizon;
      rows = map (λ s. map (λ r. r.items) s.items) p.rows.items;
    } };

    ghost invariant = { λ p. AreKept p.horizon (map (λ s. map (λ r. r.items) s.items) p.rows.items) };
}

impl Shared {
    // The shared policy of these rows, which takes no memory.
    pub(crate) fn of(rows: Vec<Vec<Vec<Row>>>, horizon: u32) -> Shared
        requires { AreKept horizon (map (λ s. map (λ r. r.items) s.items) rows.items) }
        ensures { result ≡ record { horizon = horizon; rows = map (λ s. map (λ r. r.items) s.items) rows.items } }
    {
        Shared { horizon, rows }
    }

    /// What holds of all shared policies. It does nothing.
    #[inline]
    pub fn invariant(&self)
        ensures { AreKept self.now.horizon self.now.rows }
    {
        let _ = &self.horizon;
    }

    /// How many agents there are.
    pub fn agents(&self) -> u32
        ensures is { result ≡ length self.now.rows }
        ensures limit { result ≤ 6 }
    {
        self.rows.len() as u32
    }

    /// How many steps the policy has.
    pub fn horizon(&self) -> u32
        ensures is { result ≡ self.now.horizon }
        ensures limit { result ≤ 24 }
    {
        self.horizon
    }

    /// The rows of all agents, stage by stage.
    #[inline]
    pub fn all_rows(&self) -> &[Vec<Vec<Row>>]
        ensures { map (λ s. map (λ r. r.items) s.items) result.now ≡ self.now.rows }
    {
        self.rows.as_slice()
    }

    // The rows of a stage of an agent.
    #[inline]
    fn stage(&self, agent: u32, stage: u32) -> &[Row]
        requires agent { agent < length self.now.rows }
        requires stage { stage < self.now.horizon }
        ensures rows { result.now ≡ get_or (get_or self.now.rows agent []) stage [] }
        ensures limit { length result.now ≤ 2 ^ 22 }
    {
        &self.rows[agent as usize][stage as usize]
    }

    /// How many rows an agent has at a stage.
    pub fn rows(&self, agent: u32, stage: u32) -> u32
        requires agent { agent < length self.now.rows }
        requires stage { stage < self.now.horizon }
        ensures is { result ≡ row_count (get_or self.now.rows agent []) stage }
        ensures limit { result ≤ 2 ^ 22 }
    {
        self.stage(agent, stage).len() as u32
    }

    /// The action of a row.
    pub fn action(&self, agent: u32, stage: u32, row: u32) -> u32
        requires agent { agent < length self.now.rows }
        requires stage { stage < self.now.horizon }
        requires row { row < row_count (get_or self.now.rows agent []) stage }
        ensures { result ≡ (row_at (get_or self.now.rows agent []) stage row).action }
    {
        self.stage(agent, stage)[row as usize].action()
    }

    // The next rows of a row.
    #[inline]
    pub(crate) fn nexts_of(&self, agent: u32, stage: u32, row: u32) -> &[u32]
        requires agent { agent < length self.now.rows }
        requires stage { stage < self.now.horizon }
        requires row { row < row_count (get_or self.now.rows agent []) stage }
        ensures is { result.now ≡ (row_at (get_or self.now.rows agent []) stage row).next }
        ensures limit { length result.now ≤ 256 }
    {
        let _ = &self.horizon;
        self.stage(agent, stage)[row as usize].nexts()
    }

    /// How many next rows a row has: one for each own observation of the agent, and none at the last
    /// stage.
    pub fn nexts(&self, agent: u32, stage: u32, row: u32) -> u32
        requires agent { agent < length self.now.rows }
        requires stage { stage < self.now.horizon }
        requires row { row < row_count (get_or self.now.rows agent []) stage }
        ensures { result ≡ length (row_at (get_or self.now.rows agent []) stage row).next }
    {
        self.nexts_of(agent, stage, row).len() as u32
    }

    /// The row of the next stage that follows a row after own observation `seen`.
    pub fn next(&self, agent: u32, stage: u32, row: u32, seen: u32) -> u32
        requires agent { agent < length self.now.rows }
        requires stage { stage < self.now.horizon }
        requires row { row < row_count (get_or self.now.rows agent []) stage }
        requires seen { seen < length (row_at (get_or self.now.rows agent []) stage row).next }
        ensures { result ≡ get_or (row_at (get_or self.now.rows agent []) stage row).next seen 0 }
    {
        self.nexts_of(agent, stage, row)[seen as usize]
    }

    /// The action of an agent after own observations, the earliest first, fewer than the policy has steps:
    /// that of its tree in the joint policy which the rows mean.
    pub fn action_at(&self, agent: u32, history: &[u32]) -> u32
        requires agent { agent < length self.now.rows }
        requires shorter { length history.now < self.now.horizon }
        requires seen { (t : ℕ) → t < length history.now →
            get_or history.now t 0 < length (row_at (get_or self.now.rows agent []) 0 0).next }
        ensures { result ≡
            root_action (remaining_after (unfolded_tree (get_or self.now.rows agent []) 0) history.now) }
    {
        let _ = &self.horizon;
        let mut row = 0;
        for stage in 0..history.len() {
            row = self.next(agent, stage as u32, row, history[stage]);
        }
        self.action(agent, history.len() as u32, row)
    }

    /// Whether the rows are a shared policy of a model over the policy's horizon. It takes no memory.
    pub fn fits_model(&self, model: &dp_model::Model) -> bool
        ensures { IsTrue result ↔ IsSharedOf model.now.model self.now.horizon self.now.rows }
    {
        is_shared(&self.rows, model, self.horizon)
    }
}
