//! The repair of rows of chances.
ghost use Rattle.std.specs.Prelude.{◌≡◌, ◌≢◌, ◌<◌, ◌≤◌, ◌*◌, ◌^◌, IfErr, IfOk, IfSome, IsTrue, length, sum};
ghost use Rattle.dp_meaning.specs.Rows.{greatest_cell, greatest_place, is_near, repaired_cells};
ghost use Rattle.dp_tables.specs.Repair.{RepairsRow, RepairsRows};

fn sum_of(row: &[u64]) -> u128
    requires { length row.now ≤ 256 }
    ensures is { result ≡ sum row.now }
    ensures limit { result ≤ 2 ^ 72 }
{
    let mut total = 0;
    for cell in row {
        total += u128::from(*cell);
    }
    total
}

fn greatest_cell(row: &[u64]) -> u64
    ensures { result ≡ greatest_cell row.now }
{
    let mut greatest = 0;
    for cell in row {
        greatest = greatest.max(*cell);
    }
    greatest
}

// The place of the first of the largest cells.
fn greatest_place(row: &[u64]) -> usize
    ensures { result ≡ greatest_place row.now }
{
    let greatest = greatest_cell(row);
    row.iter().take_while(|cell| **cell != greatest).count()
}

// Whether the sum of a row misses the scale by at most a thousandth of it.
fn is_near(scale: u64, total: u128) -> bool
    requires { total ≤ 2 ^ 72 }
    ensures { result ≡ is_near scale total }
{
    total.abs_diff(u128::from(scale)) * 1000 <= u128::from(scale)
}

// Puts what is missing to the scale, or too much, at the first of the largest cells.
#[tactic(auto, using(crate::proofs::RepairLemmas::place_of_near), unfolding(dp_meaning::specs::Rows::repaired_cells))]
fn move_sum(row: &mut [u64], scale: u64, total: u128)
    requires short { length row.old ≤ 256 }
    requires total { total ≡ sum row.old }
    requires near { IsTrue (is_near scale total) }
    requires wrong { total ≢ scale }
    ensures { row.new ≡ repaired_cells scale row.old }
{
    let place = greatest_place(row);
    let cell = u128::from(row[place]) + u128::from(scale) - total;
    row[place] = cell as u64;
}

// Repairs a row where its sum is not the scale, but nearly. Answers how often that was, or nothing
// where the sum is too far from the scale.
fn repair_row(row: &mut [u64], scale: u64) -> Option<u32>
    requires { length row.old ≤ 256 }
    ensures is { RepairsRow scale row.old row.new result }
    ensures once { IfSome result (λ count. count ≤ 1) }
{
    let total = sum_of(row);
    if total == u128::from(scale) {
        return Some(0);
    }
    if !is_near(scale, total) {
        return None;
    }
    move_sum(row, scale, total);
    Some(1)
}

/// Repairs the rows of `len` cells each, in order, and answers how many were not right before; or
/// else the number of the first row that cannot be repaired.
pub(crate) fn repair_rows(cells: &mut [u64], rows: u32, len: u32, scale: u64) -> Result<u32, u32>
    requires size { rows * len ≡ length cells.old }
    requires rows { rows ≤ 2 ^ 16 }
    requires short { len ≤ 256 }
    requires scale { 0 < scale }
    ensures few { IfOk result (λ repaired. repaired ≤ rows) }
    ensures row { IfErr result (λ row. row < rows) }
    ensures is { RepairsRows scale rows len cells.old cells.new result }
{
    let len = len as usize;
    let mut repaired = 0;
    for row in 0..rows {
        let from = row as usize * len;
        match repair_row(&mut cells[from..from + len], scale) {
            Some(count) => repaired += count,
            None => return Err(row),
        }
    }
    Ok(repaired)
}
