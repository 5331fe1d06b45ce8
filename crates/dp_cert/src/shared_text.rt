//! The policy of a certificate text of version 2: rows that own histories share.
ghost use Rattle.std.specs.Prelude.{◌≡◌, ℕ, ◌+◌, ◌*◌, ◌-◌, ◌^◌, ◌<◌, ◌≤◌, map, pos, replicate, drop, length, IfOk};
ghost use Rattle.std.specs.Prelude.{IfErr, None, [], ◌∷◌, codes};
ghost use Rattle.std.specs.List.{AllByRecursion};
ghost use Rattle.dp_spec.specs.SharedRows.{counts_form, first_past, products, shared_row_form};
ghost use Rattle.dp_spec.specs.TextLines.{fixed, plain};
ghost use Rattle.dp_lines.specs.Lines.{plain_form};
ghost use Rattle.dp_lines.specs.Scanning.{front_of};
ghost use Rattle.dp_cert.specs.declared.fault.CertFault.TheVariants as faults;
ghost use Rattle.dp_cert.specs.PolicyGrammar.{cells_passed, counts_grammar, first_of_counts, nexts_before, row_line};
ghost use Rattle.dp_cert.specs.PolicyGrammar.{row_of, rows_of_form, shared_agents, shared_stages};
ghost use Rattle.dp_cert.specs.Reading.{Gives};
ghost use Rattle.dp_lines.specs.Reading.{rest_at};

use crate::CertFault;
use crate::lines::{Lines, numbers, row};
use crate::plain_text::agent_line;
use crate::ranges::and_alike;
use dp_lines::PlainRange;
use dp_model::{Limit, Model, Sequence, TooLarge};
use dp_policy::Row;
use std::alloc::Global;

// The greatest number of states times joint rows of a stage, and so of rows.
const MOST_CELLS: u64 = 1 << 22;

const ONE_ROW: PlainRange = PlainRange { low: 1, high: 1 };

const MORE_ROWS: PlainRange = PlainRange {
    low: 1,
    high: 1 << 22,
};

/// The rows of all agents.
pub(crate) fn shared_agents<'a>(
    alloc: Global,
    from: Lines<'a>,
    model: &Model,
    horizon: u32,
) -> Result<(Vec<Vec<Vec<Row>>>, Lines<'a>), CertFault>
    requires { 1 ≤ horizon }
    ensures { Gives (λ x. rest_at (map (λ s. map (λ r. r.items) s.items) x.0.items) x.1.line x.1.rest.now) result
        (front_of (shared_agents horizon 0 (replicate horizon model.now.model.states)
        model.now.model.actions model.now.model.observations) from.entry.line from.entry.rest.now) }
{
    model.invariant();
    let ranges = count_ranges(alloc, horizon)?;
    let mut agents = Vec::new(alloc);
    let mut cells = all_states(alloc, horizon, model.states())?;
    let mut at = from;
    for agent in 0..model.agents() {
        let (counted, counts_end) = agent_counts(
            alloc,
            at,
            agent,
            horizon,
            ranges.as_slice(),
            cells.as_slice(),
        )?;
        let (stages, behind) = shared_stages(
            alloc,
            counts_end,
            model.actions(agent),
            model.observations(agent),
            counted.counts.as_slice(),
        )?;
        agents.push(stages)?;
        cells = counted.cells;
        at = behind;
    }
    Ok((agents, at))
}

// How many rows an agent has at each stage, and the cells that they make.
#[derive(Drop)]
struct Counted {
    counts: Vec<u32>,
    cells: Vec<u64>,
}

// The counts of an agent, with the limit on the cells.
fn agent_counts<'a>(
    alloc: Global,
    from: Lines<'a>,
    agent: u32,
    horizon: u32,
    ranges: &[PlainRange],
    cells: &[u64],
) -> Result<(Counted, Lines<'a>), CertFault>
    requires ranges { fixed (codes "rows") ∷ plain_form ranges.now ≡ counts_form horizon }
    requires count { length ranges.now ≡ horizon }
    requires alike { length cells.now ≡ length ranges.now }
    requires few { AllByRecursion (λ (k : ℕ). k ≤ 2 ^ 22) cells.now }
    ensures gives { Gives (λ x. rest_at x.0.counts.items x.1.line x.1.rest.now) result
        (front_of (counts_grammar horizon agent cells.now) from.entry.line from.entry.rest.now) }
    ensures cells { IfOk result (λ x. x.0.cells.items ≡ products cells.now x.0.counts.items) }
    ensures alike { IfOk result (λ x. length x.0.cells.items ≡ length ranges.now) }
    ensures few { IfOk result (λ x. AllByRecursion (λ (k : ℕ). k ≤ 2 ^ 22) x.0.cells.items) }
    ensures some { IfOk result (λ x. AllByRecursion (λ (k : ℕ). 0 < k) x.0.counts.items) }
{
    let named = agent_line(alloc, from, agent)?;
    let (counts, to) = numbers(alloc, named, b"rows", ranges)?;
    let cells = products(alloc, cells, counts.as_slice())?;
    match cells_passed(cells.as_slice()) {
        None => Ok((Counted { counts, cells }, to)),
        Some(passed) => Err(CertFault::TooLarge(passed)),
    }
}

// How many rows each stage may have: the first has one.
fn count_ranges(alloc: Global, horizon: u32) -> Result<Vec<PlainRange>, CertFault>
    requires { 1 ≤ horizon }
    ensures ok { IfOk result (λ ranges. fixed (codes "rows") ∷ plain_form ranges.items ≡ counts_form horizon) }
    ensures count { IfOk result (λ ranges. length ranges.items ≡ horizon) }
    ensures err { IfErr result (λ fault. fault ≡ faults.Memory) }
{
    let mut first = Vec::new(alloc);
    first.push(ONE_ROW)?;
    and_alike(first, horizon - 1, MORE_ROWS)
}

// The number of states at each stage.
fn all_states(alloc: Global, horizon: u32, states: u32) -> Result<Vec<u64>, CertFault>
    ensures ok { IfOk result (λ cells. cells.items ≡ replicate horizon states) }
    ensures count { IfOk result (λ cells. length cells.items ≡ horizon) }
    ensures err { IfErr result (λ fault. fault ≡ faults.Memory) }
{
    let mut cells = Vec::new(alloc);
    for _stage in 0..horizon {
        cells.push(u64::from(states))?;
    }
    Ok(cells)
}

// The cells times the counts, stage by stage.
fn products(alloc: Global, cells: &[u64], counts: &[u32]) -> Result<Vec<u64>, CertFault>
    requires alike { length counts.now ≡ length cells.now }
    requires few { AllByRecursion (λ (k : ℕ). k ≤ 2 ^ 22) cells.now }
    ensures ok { IfOk result (λ all. all.items ≡ products cells.now counts.now) }
    ensures count { IfOk result (λ all. length all.items ≡ length cells.now) }
    ensures err { IfErr result (λ fault. fault ≡ faults.Memory) }
{
    let mut all = Vec::new(alloc);
    for stage in 0..cells.len() {
        all.push(cells[stage] * u64::from(counts[stage]))?;
    }
    Ok(all)
}

// The limit that the cells pass.
fn cells_passed(cells: &[u64]) -> Option<TooLarge>
    ensures { result ≡ cells_passed cells.now }
{
    for cell in cells {
        if *cell > MOST_CELLS {
            return Some(TooLarge {
                what: Limit::PolicyCells,
                count: u128::from(*cell),
            });
        }
    }
    None
}

// The rows of the stages of an agent, so many at each.
fn shared_stages<'a>(
    alloc: Global,
    from: Lines<'a>,
    actions: u32,
    observations: u32,
    counts: &[u32],
) -> Result<(Vec<Vec<Row>>, Lines<'a>), CertFault>
    requires actions { 0 < actions }
    requires counts { AllByRecursion (λ (k : ℕ). 0 < k) counts.now }
    ensures { Gives (λ x. rest_at (map (λ r. r.items) x.0.items) x.1.line x.1.rest.now) result
        (front_of (shared_stages actions observations counts.now) from.entry.line from.entry.rest.now) }
{
    let mut stages = Vec::new(alloc);
    let mut at = from;
    for stage in 0..counts.len() {
        let ranges = row_ranges(alloc, actions, observations, following(counts, stage))?;
        let (rows, behind) = shared_rows(alloc, at, counts[stage], ranges.as_slice())?;
        stages.push(rows)?;
        at = behind;
    }
    Ok((stages, at))
}

// The counts of the stages that follow one.
fn following(counts: &[u32], stage: usize) -> &[u32]
    requires { stage < length counts.now }
    ensures { result.now ≡ drop (stage + 1) counts.now }
{
    &counts[stage + 1..]
}

// The ranges of a row: its action, and next rows of the first of these stages.
fn row_ranges(
    alloc: Global,
    actions: u32,
    observations: u32,
    following: &[u32],
) -> Result<Vec<PlainRange>, CertFault>
    requires actions { 0 < actions }
    requires following { AllByRecursion (λ (k : ℕ). 0 < k) following.now }
    ensures ok { IfOk result (λ ranges. plain_form ranges.items
        ≡ shared_row_form actions (nexts_before observations following.now) (first_of_counts following.now)) }
    ensures some { IfOk result (λ ranges. 0 < length ranges.items) }
    ensures err { IfErr result (λ fault. fault ≡ faults.Memory) }
{
    let mut first = Vec::new(alloc);
    first.push(PlainRange {
        low: 0,
        high: actions - 1,
    })?;
    match following {
        [] => Ok(first),
        [count, ..] => {
            let range = PlainRange {
                low: 0,
                high: *count - 1,
            };
            and_alike(first, observations, range)
        }
    }
}

// So many rows.
fn shared_rows<'a>(
    alloc: Global,
    from: Lines<'a>,
    count: u32,
    ranges: &[PlainRange],
) -> Result<(Vec<Row>, Lines<'a>), CertFault>
    requires some { 0 < length ranges.now }
    ensures { Gives (λ x. rest_at x.0.items x.1.line x.1.rest.now) result
        (front_of (rows_of_form (plain_form ranges.now) count) from.entry.line from.entry.rest.now) }
{
    let mut rows = Vec::new(alloc);
    let mut at = from;
    for _row in 0..count {
        let (one, behind) = shared_row(alloc, at, ranges)?;
        rows.push(one)?;
        at = behind;
    }
    Ok((rows, at))
}

// One row.
fn shared_row<'a>(
    alloc: Global,
    from: Lines<'a>,
    ranges: &[PlainRange],
) -> Result<(Row, Lines<'a>), CertFault>
    requires some { 0 < length ranges.now }
    ensures { Gives (λ x. rest_at x.0 x.1.line x.1.rest.now) result
        (front_of (row_line (plain_form ranges.now)) from.entry.line from.entry.rest.now) }
{
    let (numbers, to) = row(alloc, from, ranges)?;
    Ok((row_of(numbers), to))
}

// The row of the numbers of a line.
fn row_of(numbers: Vec<u32>) -> Row
    requires some { 0 < length numbers.items }
    ensures { result ≡ row_of (map pos numbers.items) }
{
    let mut next = numbers;
    let action = next.remove(0);
    Row {
        action,
        next: Sequence::of(next),
    }
}
