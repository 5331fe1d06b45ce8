//! Kinds of rows, by numbers: rows of a stage are of one kind where their trees are equal.
ghost use Rattle.std.specs.Prelude.{◌≡◌, ◌⊎◌, ◌≢◌, ℕ, ◌-◌, ◌^◌, ◌<◌, ◌≤◌, [], Some, None, IfOk};
ghost use Rattle.std.specs.Prelude.{suc, length, map, get_or};
ghost use Rattle.std.specs.BTreeMap.{get};
ghost use Rattle.std.specs.Ordering.{nat_cmp};
ghost use Rattle.std.specs.List.{range_with_len};
ghost use Rattle.dp_spec.specs.SharedPolicy.{IsSharedOf, row_at, row_count};
ghost use Rattle.dp_policy.specs.Kinds.{AreKinds, ArePairNumbers};

use crate::Shared;
use crate::rows_of_action::nexts_at;
use dp_base::Memory;
use dp_model::Model;
use std::alloc::Global;
use std::collections::BTreeMap;

// The kinds of the rows of each stage, the last stage first. They are compared by numbers, from the last
// stage up, and not by their trees.
pub(crate) fn agent_kinds(
    alloc: Global,
    policy: &Shared,
    model: &Model,
    agent: u32,
) -> Result<Vec<Vec<u32>>, Memory>
    requires policy { IsSharedOf model.now.model policy.now.horizon policy.now.rows }
    requires agent { agent < length policy.now.rows }
    ensures counted { IfOk result (λ v. length v.items ≡ policy.now.horizon) }
    ensures kinds { IfOk result (λ v. (k : ℕ) → k < policy.now.horizon →
        AreKinds (get_or policy.now.rows agent []) (policy.now.horizon - suc k)
        (get_or (map (λ s. s.items) v.items) k [])) }
{
    let mut all = Vec::new(alloc);
    for back in 0..policy.horizon() {
        let stage = policy.horizon() - 1 - back;
        let kinds = stage_kinds(alloc, policy, model, agent, stage, last_of(&all))?;
        all.push(kinds)?;
    }
    Ok(all)
}

// The last of some lists, or an empty one.
pub(crate) fn last_of(lists: &[Vec<u32>]) -> &[u32]
    ensures { result.now ≡ get_or (map (λ s. s.items) lists.now) (length lists.now - 1) [] }
{
    if lists.is_empty() {
        &[]
    } else {
        &lists[lists.len() - 1]
    }
}

// The kinds of the rows of a stage, by those of the next stage: rows of one kind have equal actions, and
// next rows of equal kinds.
fn stage_kinds(
    alloc: Global,
    policy: &Shared,
    model: &Model,
    agent: u32,
    stage: u32,
    later: &[u32],
) -> Result<Vec<u32>, Memory>
    requires policy { IsSharedOf model.now.model policy.now.horizon policy.now.rows }
    requires agent { agent < length policy.now.rows }
    requires stage { stage < policy.now.horizon }
    requires later { suc stage < policy.now.horizon →
        AreKinds (get_or policy.now.rows agent []) (suc stage) later.now }
    ensures { IfOk result (λ v. AreKinds (get_or policy.now.rows agent []) stage v.items) }
{
    model.invariant();
    let nexts = nexts_at(stage, policy.horizon(), model.observations(agent));
    let actions = actions_of(alloc, policy, agent, stage)?;
    let mut kinds = pair_numbers(alloc, &actions, &actions)?;
    for seen in 0..nexts {
        let following = kinds_after(alloc, policy, agent, stage, seen, later)?;
        kinds = pair_numbers(alloc, &kinds, &following)?;
    }
    Ok(kinds)
}

// The actions of the rows of a stage.
fn actions_of(alloc: Global, policy: &Shared, agent: u32, stage: u32) -> Result<Vec<u32>, Memory>
    requires agent { agent < length policy.now.rows }
    requires stage { stage < policy.now.horizon }
    ensures is { IfOk result (λ v. v.items ≡ map (λ r. (row_at (get_or policy.now.rows agent []) stage r).action)
        (range_with_len 0 (row_count (get_or policy.now.rows agent []) stage))) }
    ensures limit { IfOk result (λ v. row_count (get_or policy.now.rows agent []) stage ≤ 2 ^ 22) }
{
    let mut actions = Vec::new(alloc);
    for row in 0..policy.rows(agent, stage) {
        actions.push(policy.action(agent, stage, row))?;
    }
    Ok(actions)
}

// For each row of a stage the kind of the row that follows it after an observation.
fn kinds_after(
    alloc: Global,
    policy: &Shared,
    agent: u32,
    stage: u32,
    seen: u32,
    later: &[u32],
) -> Result<Vec<u32>, Memory>
    requires agent { agent < length policy.now.rows }
    requires stage { stage < policy.now.horizon }
    requires seen { (r : ℕ) → r < row_count (get_or policy.now.rows agent []) stage →
        seen < length (row_at (get_or policy.now.rows agent []) stage r).next }
    requires later { (r : ℕ) → r < row_count (get_or policy.now.rows agent []) stage →
        get_or (row_at (get_or policy.now.rows agent []) stage r).next seen 0 < length later.now }
    ensures { IfOk result (λ v. v.items ≡
        map (λ r. get_or later.now (get_or (row_at (get_or policy.now.rows agent []) stage r).next seen 0) 0)
        (range_with_len 0 (row_count (get_or policy.now.rows agent []) stage))) }
{
    let mut kinds = Vec::new(alloc);
    for row in 0..policy.rows(agent, stage) {
        kinds.push(later[policy.next(agent, stage, row, seen) as usize])?;
    }
    Ok(kinds)
}

// A number for each pair of numbers at one place of both lists: equal where the pairs are, and each at
// most its place.
pub(crate) fn pair_numbers(alloc: Global, left: &[u32], right: &[u32]) -> Result<Vec<u32>, Memory>
    requires alike { length right.now ≡ length left.now }
    requires few { length left.now ≤ 2 ^ 22 }
    ensures { IfOk result (λ v. ArePairNumbers left.now right.now v.items) }
{
    let mut known = BTreeMap::new(alloc);
    let mut numbers = Vec::new(alloc);
    for place in 0..left.len() {
        let pair = u64::from(left[place]) * (1 << 32) + u64::from(right[place]);
        numbers.push(number_in(&mut known, pair, place as u32)?)?;
    }
    Ok(numbers)
}

// The number of a key, which is the new number where it has none.
fn number_in(known: &mut BTreeMap<u64, u32>, key: u64, number: u32) -> Result<u32, Memory>
    ensures old { IfOk result (λ z. (get nat_cmp known.old key ≡ Some z)
        ⊎ ((get nat_cmp known.old key ≡ None) × (z ≡ number))) }
    ensures has { IfOk result (λ z. get nat_cmp known.new key ≡ Some z) }
    ensures others { IfOk result (λ z. (q : ℕ) → q ≢ key →
        get nat_cmp known.new q ≡ get nat_cmp known.old q) }
{
    match known.get(&key).copied() {
        Some(found) => Ok(found),
        None => {
            known.insert(key, number)?;
            Ok(number)
        }
    }
}
