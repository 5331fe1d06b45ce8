//! Rows of chances and rewards that are drawn by the words of a generator.
ghost use Rattle.std.specs.Prelude.{◌≡◌, ◌⊎◌, ℕ, ◌+◌, ◌*◌, ◌^◌, ◌<◌, ◌≤◌, IfOk, OnOk, length, replicate};
ghost use Rattle.std.specs.Prelude.{slice_index};
ghost use Rattle.dp_writer.specs.Draws.{chance_drawn, chances_drawn, left_after, reward_drawn, rewards_drawn};

use dp_base::Memory;
use rand_core::Rng;
use std::alloc::Global;

// So many rows of `len` chances over 100, one after the other, each drawn by the next three words.
pub(crate) fn chances_drawn<R: Rng>(
    alloc: Global,
    rng: &mut R,
    rows: u32,
    len: u32,
) -> Result<Vec<u64>, Memory>
    requires some { 0 < len }
    requires few { rows * len ≤ 2 ^ 22 }
    ensures cells { IfOk result (λ cells. cells.items ≡ chances_drawn (R.stream rng.old) rows len) }
    ensures left { OnOk result (R.stream rng.new ≡ left_after (3 * rows) (R.stream rng.old)) }
{
    let mut cells = vec![in alloc; 0; rows as usize * len as usize]?;
    draw_rows(rng, &mut cells, rows, len);
    Ok(cells)
}

// Draws so many rows into cells that are all 0.
fn draw_rows<R: Rng>(rng: &mut R, cells: &mut [u64], rows: u32, len: u32)
    requires some { 0 < len }
    requires few { rows * len ≤ 2 ^ 22 }
    requires empty { cells.old ≡ replicate (rows * len) 0 }
    ensures cells { cells.new ≡ chances_drawn (R.stream rng.old) rows len }
    ensures left { R.stream rng.new ≡ left_after (3 * rows) (R.stream rng.old) }
{
    for row in 0..rows {
        let first = rng.next_u64();
        let second = rng.next_u64();
        let share = rng.next_u64();
        draw_row(cells, row * len, len, first, second, share);
    }
}

// Draws a row of `len` chances, which begins at a place, by three words. Its cells are 0 before.
fn draw_row(cells: &mut [u64], begin: u32, len: u32, first: u64, second: u64, share: u64)
    requires some { 0 < len }
    requires room { begin + len ≤ length cells.old }
    requires few { begin + len ≤ 2 ^ 22 }
    requires empty { (i : ℕ) → i < len → slice_index cells.old (begin + i) ≡ 0 }
    ensures row { (i : ℕ) → i < len →
        slice_index cells.new (begin + i) ≡ chance_drawn len first second share i }
    ensures others { (j : ℕ) → (j < begin) ⊎ (begin + len ≤ j) →
        slice_index cells.new j ≡ slice_index cells.old j }
{
    let given = 1 + share % 99;
    let first = u64::from(begin) + first % u64::from(len);
    let second = u64::from(begin) + second % u64::from(len);
    cells[first as usize] = given;
    cells[second as usize] += 100 - given;
}

// So many rewards from -100 to 100, each `len` times, one after the other, each drawn by the next word.
pub(crate) fn rewards_drawn<R: Rng>(
    alloc: Global,
    rng: &mut R,
    rows: u32,
    len: u32,
) -> Result<Vec<i64>, Memory>
    requires some { 0 < len }
    requires few { rows * len ≤ 2 ^ 28 }
    ensures { IfOk result (λ cells. cells.items ≡ rewards_drawn (R.stream rng.old) rows len) }
{
    let mut cells = Vec::with_capacity(alloc, rows as usize * len as usize)?;
    for _row in 0..rows {
        let reward = reward_drawn(rng.next_u64());
        cells.resize(cells.len() + len as usize, reward)?;
    }
    Ok(cells)
}

// The reward from -100 to 100 that a word draws.
fn reward_drawn(word: u64) -> i64
    ensures { result ≡ reward_drawn word }
{
    (word % 201) as i64 - 100
}
