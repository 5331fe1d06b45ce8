//! Writing the values of a statement into the cells that it covers.
ghost use Rattle.std.specs.Prelude.{◌≡◌, ◌≢◌, ◌⊎◌, ℕ, ◌*◌, ◌%◌, ◌+◌, ◌<◌, ◌≤◌, nat_le, nat_lt, ◌&&◌};
ghost use Rattle.std.specs.Prelude.{List, [], ◌∷◌, ◌++◌, length, drop, get_or};
ghost use Rattle.dp_spec.specs.JointNumbers.{product};
ghost use Rattle.dp_tables.specs.Writing.{ArePartsWithin, AreWritten, IsPartWithin, is_covered};
ghost use Rattle.dp_meaning.specs.declared.statement.Part.{Part};
ghost use Rattle.dp_meaning.specs.Cells.{allows};

use dp_meaning::Part;

/// Writes a block of values to the cells that the parts allow. The number of a cell has one digit
/// for each of `sizes`, the first most significant, and the parts stand for the first of these; a
/// cell gets the value of the block that the other digits number. A block of one value is that
/// value for all of them.
pub(crate) fn write_block<T: Copy>(cells: &mut [T], sizes: &[u32], parts: &[Part], block: &[T])
    requires cells { length cells.old ≡ product sizes.now }
    requires some { 0 < product sizes.now }
    requires parts { ArePartsWithin sizes.now parts.now }
    requires block { (length block.now ≡ 1) ⊎ (length block.now ≡ product (drop (length parts.now) sizes.now)) }
    ensures { AreWritten sizes.now parts.now block.now cells.old cells.new }
{
    if block.len() == 1 {
        // One value fills whole stretches where the last parts allow all.
        write(cells, sizes, without_last_any(parts), block);
    } else {
        write(cells, sizes, parts, block);
    }
}

/// The parts up to the last that names one number. They allow the same cells.
fn without_last_any(parts: &[Part]) -> &[Part]
    ensures same { (sizes : List ℕ) (k : ℕ) → is_covered sizes result.now k ≡ is_covered sizes parts.now k }
    ensures within { (sizes : List ℕ) → ArePartsWithin sizes parts.now → ArePartsWithin sizes result.now }
    ensures last { (front : List Part) → result.now ≢ front ++ Part.Any ∷ [] }
{
    match parts.split_last() {
        Some((Part::Any, front)) => without_last_any(front),
        _ => parts,
    }
}

/// As `write_block`, stretch by stretch.
fn write<T: Copy>(cells: &mut [T], sizes: &[u32], parts: &[Part], block: &[T])
    requires cells { length cells.old ≡ product sizes.now }
    requires some { 0 < product sizes.now }
    requires parts { ArePartsWithin sizes.now parts.now }
    requires block { (length block.now ≡ 1) ⊎ (length block.now ≡ product (drop (length parts.now) sizes.now)) }
    ensures { AreWritten sizes.now parts.now block.now cells.old cells.new }
{
    let [part, others @ ..] = parts else {
        return put(cells, block);
    };
    let size = sizes[0];
    let step = cells.len() / size as usize;
    let (first, end) = stretches(*part, size);
    for i in first..end {
        write(
            &mut cells[i * step..(i + 1) * step],
            &sizes[1..],
            others,
            block,
        );
    }
}

/// The stretches of so many that a part allows, from the first up to the end.
fn stretches(part: Part, size: u32) -> (usize, usize)
    requires { IsPartWithin size part }
    ensures first { result.0 ≤ result.1 }
    ensures end { result.1 ≤ size }
    ensures within { (i : ℕ) → i < size → allows part i ≡ (nat_le result.0 i && nat_lt i result.1) }
{
    match part {
        Part::Any => (0, size as usize),
        Part::Only(n) => (n as usize, n as usize + 1),
    }
}

/// Writes the values of a block to the cells in order, or its one value to all.
fn put<T: Copy>(cells: &mut [T], block: &[T])
    requires { (length block.now ≡ 1) ⊎ (length block.now ≡ length cells.old) }
    ensures { (k : ℕ) (d : T) → k < length cells.old →
        get_or cells.new k d ≡ get_or block.now (k % length block.now) d }
{
    if let [value] = block {
        for cell in cells.iter_mut() {
            *cell = *value;
        }
    } else {
        cells.copy_from_slice(block);
    }
}
