//! Rows joined to a shared policy.
ghost use Rattle.std.specs.Prelude.{◌≡◌, ◌*◌, ◌^◌, ◌<◌, ◌≤◌, ◌↔◌, ℕ, [], IsTrue, SomeIff};
ghost use Rattle.std.specs.Prelude.{drop, length, map, get_or};
ghost use Rattle.dp_spec.specs.JointNumbers.{product};
ghost use Rattle.dp_spec.specs.SharedPolicy.{AreAgentRows, AreRowsOfAgents, AreStages, IsRow, IsSharedOf};
ghost use Rattle.dp_spec.specs.SharedPolicy.{first_count, next_count, no_row, row_count, row_counts};
ghost use Rattle.dp_policy.specs.SharedRows.{IsStage};

use crate::{Row, Shared};
use dp_model::Model;

// The greatest number of states times joint rows of a stage.
const MOST_CELLS: u128 = 1 << 22;

/// The shared policy of these rows, for each agent and each stage, over a horizon from 1 to 24; `None`
/// exactly where they are no shared policy of the model over it, and then they are dropped: for each
/// agent one row at the first stage and at least one at each, an action of the agent in each row, next
/// rows of the next stage for each own observation and none at the last stage, and at no stage more than
/// `2^22` states times joint rows. It takes no memory.
pub fn join_rows(rows: Vec<Vec<Vec<Row>>>, model: &Model, horizon: u32) -> Option<Shared>
    requires some_step { 1 ≤ horizon }
    requires limit { horizon ≤ 24 }
    ensures { SomeIff result
        (IsSharedOf model.now.model horizon (map (λ s. map (λ r. r.items) s.items) rows.items))
        (record { horizon = horizon; rows = map (λ s. map (λ r. r.items) s.items) rows.items }) }
{
    model.invariant();
    if is_shared(&rows, model, horizon) {
        Some(Shared::of(rows, horizon))
    } else {
        None
    }
}

// Whether rows are a shared policy of a model.
pub(crate) fn is_shared(rows: &[Vec<Vec<Row>>], model: &Model, horizon: u32) -> bool
    ensures { IsTrue result ↔
        IsSharedOf model.now.model horizon (map (λ s. map (λ r. r.items) s.items) rows.now) }
{
    model.invariant();
    are_of_agents(rows, model, horizon) && have_few_cells(rows, model.states(), horizon)
}

// Whether they are rows over the horizon for each agent of the model.
fn are_of_agents(rows: &[Vec<Vec<Row>>], model: &Model, horizon: u32) -> bool
    ensures { IsTrue result ↔ AreRowsOfAgents horizon model.now.model.actions model.now.model.observations
        (map (λ s. map (λ r. r.items) s.items) rows.now) }
{
    model.invariant();
    if rows.len() != model.agents() as usize {
        return false;
    }
    for agent in 0..model.agents() {
        let stages: &[Vec<Row>] = &rows[agent as usize];
        if !are_agent_rows(
            stages,
            model.actions(agent),
            model.observations(agent),
            horizon,
        ) {
            return false;
        }
    }
    true
}

// Whether these are the rows of an agent with so many actions and observations.
fn are_agent_rows(stages: &[Vec<Row>], actions: u32, observations: u32, horizon: u32) -> bool
    ensures { IsTrue result ↔ AreAgentRows actions observations horizon (map (λ r. r.items) stages.now) }
{
    stages.len() == horizon as usize
        && first_count(stages) == 1
        && are_stages(stages, actions, observations)
}

// How many rows the first stage has.
fn first_count(stages: &[Vec<Row>]) -> usize
    ensures { result ≡ first_count (map (λ r. r.items) stages.now) }
{
    if stages.is_empty() {
        0
    } else {
        rows_of(stages, 0).len()
    }
}

// The rows of a stage.
#[inline]
fn rows_of(stages: &[Vec<Row>], stage: usize) -> &[Row]
    requires { stage < length stages.now }
    ensures { result.now ≡ get_or (map (λ r. r.items) stages.now) stage [] }
{
    &stages[stage]
}

// Whether no stage is empty, and all rows fit the stage that follows.
fn are_stages(stages: &[Vec<Row>], actions: u32, observations: u32) -> bool
    ensures { IsTrue result ↔ AreStages actions observations (map (λ r. r.items) stages.now) }
{
    for stage in 0..stages.len() {
        if !is_stage(stages, stage, actions, observations) {
            return false;
        }
    }
    true
}

// Whether a stage is not empty, and its rows fit the stage that follows.
fn is_stage(stages: &[Vec<Row>], stage: usize, actions: u32, observations: u32) -> bool
    requires { stage < length stages.now }
    ensures { IsTrue result ↔ IsStage actions observations (drop stage (map (λ r. r.items) stages.now)) }
{
    let rows = rows_of(stages, stage);
    let following = &stages[stage + 1..];
    !rows.is_empty()
        && are_rows(
            rows,
            actions,
            next_count(following, observations),
            first_count(following),
        )
}

// How many next rows a row has where these stages follow its own.
fn next_count(stages: &[Vec<Row>], observations: u32) -> u32
    ensures { result ≡ next_count observations (map (λ r. r.items) stages.now) }
{
    if stages.is_empty() { 0 } else { observations }
}

// Whether each row fits.
fn are_rows(rows: &[Row], actions: u32, nexts: u32, count: usize) -> bool
    ensures { IsTrue result ↔
        ((r : ℕ) → r < length rows.now → IsRow actions nexts count (get_or rows.now r no_row)) }
{
    for row in rows {
        if !is_row(row, actions, nexts, count) {
            return false;
        }
    }
    true
}

// Whether a row has an action of the agent, and so many next rows below a count.
fn is_row(row: &Row, actions: u32, nexts: u32, count: usize) -> bool
    ensures { IsTrue result ↔ IsRow actions nexts count row.now }
{
    row.action() < actions && row.nexts().len() == nexts as usize && are_below(row.nexts(), count)
}

// Whether all numbers are below a count.
fn are_below(numbers: &[u32], count: usize) -> bool
    ensures { IsTrue result ↔ ((o : ℕ) → o < length numbers.now → get_or numbers.now o 0 < count) }
{
    numbers.iter().all(|x| (*x as usize) < count)
}

// Whether no stage has too many joint rows.
fn have_few_cells(rows: &[Vec<Vec<Row>>], states: u32, horizon: u32) -> bool
    requires states { (0 < states) × (states ≤ 256) }
    requires stages { (i : ℕ) → i < length rows.now →
        length (get_or (map (λ s. map (λ r. r.items) s.items) rows.now) i []) ≡ horizon }
    requires some { (i t : ℕ) → i < length rows.now → t < horizon →
        0 < row_count (get_or (map (λ s. map (λ r. r.items) s.items) rows.now) i []) t }
    ensures { IsTrue result ↔ ((t : ℕ) → t < horizon →
        states * product (row_counts (map (λ s. map (λ r. r.items) s.items) rows.now) t) ≤ 2 ^ 22) }
{
    for stage in 0..horizon {
        if !has_few_cells(rows, states, stage) {
            return false;
        }
    }
    true
}

// Whether a stage has not too many joint rows.
fn has_few_cells(rows: &[Vec<Vec<Row>>], states: u32, stage: u32) -> bool
    requires states { (0 < states) × (states ≤ 256) }
    requires stages { (i : ℕ) → i < length rows.now →
        stage < length (get_or (map (λ s. map (λ r. r.items) s.items) rows.now) i []) }
    requires some { (i : ℕ) → i < length rows.now →
        0 < row_count (get_or (map (λ s. map (λ r. r.items) s.items) rows.now) i []) stage }
    ensures { IsTrue result ↔
        (states * product (row_counts (map (λ s. map (λ r. r.items) s.items) rows.now) stage) ≤ 2 ^ 22) }
{
    let mut cells = u128::from(states);
    for agent in 0..rows.len() {
        let stages: &[Vec<Row>] = &rows[agent];
        cells *= rows_of(stages, stage as usize).len() as u128;
        if cells > MOST_CELLS {
            return false;
        }
    }
    true
}
