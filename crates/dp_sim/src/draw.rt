//! Drawing from the rows of a model.
ghost use Rattle.std.specs.Prelude.{◌≡◌, ℕ, ◌<◌, ◌≤◌, ◌^◌};
ghost use Rattle.dp_base.specs.Sums.{nat_sum};
ghost use Rattle.dp_spec.specs.Model.{joint_actions, joint_observations, obs_at, start_at, trans_at};
ghost use Rattle.dp_sim.specs.Draw.{GivesRow, drawn};
ghost use Rattle.dp_sim.specs.Episode.{next_drawn, seen_drawn, start_drawn};

use dp_model::Model;

// The index that a word draws from a row of `count` cells over a scale.
fn drawn<C: Fn(u32) -> u64>(count: u32, scale: u64, cell: C, word: u64) -> u32
    requires some { 0 < scale }
    requires limit { scale ≤ 2 ^ 62 }
    requires row { (row : ℕ → ℕ) × GivesRow C.Fn cell count scale row }
    ensures is { (row : ℕ → ℕ) → GivesRow C.Fn cell count scale row → result ≡ drawn count scale row word }
    ensures below { result < count }
    ensures possible { (row : ℕ → ℕ) → GivesRow C.Fn cell count scale row → 0 < row result }
{
    let number = ((u128::from(word) * u128::from(scale)) >> 64) as u64;
    let mut sum = 0;
    for index in 0..count {
        sum += cell(index);
        if sum > number {
            return index;
        }
    }
    unreachable!()
}

// The state that a word draws to start in.
pub(crate) fn start_drawn(model: &Model, word: u64) -> u32
    ensures is { result ≡ start_drawn model.now.model word }
    ensures below { result < model.now.model.states }
    ensures possible { 0 < start_at model.now.model result }
{
    model.invariant();
    let scale = model.scales().start;
    drawn(model.states(), scale, |state| model.start(state), word)
}

// The next state that a word draws after a joint action in a state.
pub(crate) fn next_drawn(model: &Model, action: u32, state: u32, word: u64) -> u32
    requires action { action < joint_actions model.now.model }
    requires state { state < model.now.model.states }
    ensures is { result ≡ next_drawn model.now.model action state word }
    ensures below { result < model.now.model.states }
    ensures possible { 0 < trans_at model.now.model action state result }
{
    model.invariant();
    let scale = model.scales().trans;
    drawn(
        model.states(),
        scale,
        |next| model.trans(action, state, next),
        word,
    )
}

// The joint observation that a word draws on arriving in a state by a joint action.
pub(crate) fn seen_drawn(model: &Model, action: u32, next: u32, word: u64) -> u32
    requires action { action < joint_actions model.now.model }
    requires next { next < model.now.model.states }
    ensures is { result ≡ seen_drawn model.now.model action next word }
    ensures below { result < joint_observations model.now.model }
    ensures possible { 0 < obs_at model.now.model action next result }
{
    model.invariant();
    let scale = model.scales().obs;
    drawn(
        model.joint_observations(),
        scale,
        |seen| model.obs(action, next, seen),
        word,
    )
}
