//! Rows numbered anew, in the order in which they are reached.
ghost use Rattle.std.specs.Prelude.{◌≡◌, ◌⊎◌, ℕ, ◌^◌, ◌<◌, ◌≤◌, ◌++◌, ◌∷◌, [], None, IfOk, length, get_or};
ghost use Rattle.dp_spec.specs.SharedPolicy.{row_at, row_count};
ghost use Rattle.dp_policy.specs.Renumbered.{AreNumberedAfter, AreRenumbered, IsNumbering};

use crate::{Row, Shared};
use dp_base::Memory;
use dp_model::Sequence;
use std::alloc::Global;

// The rows of a stage that were reached, with next rows by new numbers: one for each kind of the next
// stage, in the order in which they are met. `later` becomes a row of each.
pub(crate) fn renumbered_rows(
    alloc: Global,
    policy: &Shared,
    agent: u32,
    stage: u32,
    reached: &[u32],
    kinds: &[u32],
    later: &mut Vec<u32>,
) -> Result<Vec<Row>, Memory>
    requires agent { agent < length policy.now.rows }
    requires stage { stage < policy.now.horizon }
    requires few { length kinds.now ≤ 2 ^ 22 }
    requires reached { (j : ℕ) → j < length reached.now →
        get_or reached.now j 0 < row_count (get_or policy.now.rows agent []) stage }
    requires following { (r o : ℕ) → r < row_count (get_or policy.now.rows agent []) stage →
        o < length (row_at (get_or policy.now.rows agent []) stage r).next →
        get_or (row_at (get_or policy.now.rows agent []) stage r).next o 0 < length kinds.now }
    requires kinds { (x : ℕ) → x < length kinds.now → get_or kinds.now x 0 < length kinds.now }
    requires none { later.old.items ≡ [] }
    ensures rows { IfOk result (λ v. AreRenumbered (get_or policy.now.rows agent []) stage kinds.now
        (length reached.now) reached.now v.items later.new.items) }
    ensures inside { IfOk result (λ v. (x : ℕ) → x < length later.new.items →
        get_or later.new.items x 0 < length kinds.now) }
    ensures apart { IfOk result (λ v. (x y : ℕ) → x < length later.new.items → y < length later.new.items →
        get_or kinds.now (get_or later.new.items x 0) 0 ≡ get_or kinds.now (get_or later.new.items y 0) 0 → x ≡ y) }
{
    let mut numbers = nones(alloc, kinds.len())?;
    let mut rows = Vec::new(alloc);
    for place in 0..reached.len() {
        let row = reached[place];
        let nexts = policy.nexts_of(agent, stage, row);
        let next = renumbered_nexts(alloc, nexts, kinds, &mut numbers, later)?;
        rows.push(Row {
            action: policy.action(agent, stage, row),
            next: Sequence::of(next),
        })?;
    }
    Ok(rows)
}

// The new numbers of next rows.
fn renumbered_nexts(
    alloc: Global,
    nexts: &[u32],
    kinds: &[u32],
    numbers: &mut Vec<Option<u32>>,
    later: &mut Vec<u32>,
) -> Result<Vec<u32>, Memory>
    requires few { length kinds.now ≤ 2 ^ 22 }
    requires numbering { IsNumbering kinds.now numbers.old.items later.old.items }
    requires nexts { (o : ℕ) → o < length nexts.now → get_or nexts.now o 0 < length kinds.now }
    requires kinds { (x : ℕ) → x < length kinds.now → get_or kinds.now x 0 < length kinds.now }
    ensures numbering { IfOk result (λ v. IsNumbering kinds.now numbers.new.items later.new.items) }
    ensures news { IfOk result (λ v.
        AreNumberedAfter kinds.now (length nexts.now) nexts.now
        later.old.items later.new.items v.items) }
{
    let mut news = Vec::new(alloc);
    for place in 0..nexts.len() {
        news.push(new_number(nexts[place], kinds, numbers, later)?)?;
    }
    Ok(news)
}

// The new number of a row of the next stage: that of its kind, or the next one where it has none yet.
fn new_number(
    row: u32,
    kinds: &[u32],
    numbers: &mut Vec<Option<u32>>,
    later: &mut Vec<u32>,
) -> Result<u32, Memory>
    requires few { length kinds.now ≤ 2 ^ 22 }
    requires numbering { IsNumbering kinds.now numbers.old.items later.old.items }
    requires row { row < length kinds.now }
    requires kinds { (x : ℕ) → x < length kinds.now → get_or kinds.now x 0 < length kinds.now }
    ensures numbering { IfOk result (λ x. IsNumbering kinds.now numbers.new.items later.new.items) }
    ensures number { IfOk result (λ x. ((x < length later.old.items) × (later.new.items ≡ later.old.items))
        ⊎ ((x ≡ length later.old.items) × (later.new.items ≡ later.old.items ++ row ∷ []))) }
    ensures same { IfOk result (λ x. get_or kinds.now (get_or later.new.items x 0) 0 ≡ get_or kinds.now row 0) }
{
    let kind = kinds[row as usize] as usize;
    match numbers[kind] {
        Some(number) => Ok(number),
        None => {
            let number = later.len() as u32;
            later.push(row)?;
            numbers[kind] = Some(number);
            Ok(number)
        }
    }
}

// So many places without a number.
fn nones(alloc: Global, count: usize) -> Result<Vec<Option<u32>>, Memory>
    ensures counted { IfOk result (λ v. length v.items ≡ count) }
    ensures none { IfOk result (λ v. (k : ℕ) → get_or v.items k None ≡ None) }
{
    let mut all = Vec::new(alloc);
    for _place in 0..count {
        all.push(None)?;
    }
    Ok(all)
}
