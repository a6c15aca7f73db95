//! Rows of a table that change places, are copied, or are emptied.

ghost use Rattle.std.specs.Prelude.{◌≡◌, ◌≢◌, ◌<◌, ◌≤◌, ◌+◌, ◌*◌, ◌⊎◌, ◌^◌, ℕ, pos, nat_abs, set, slice_index_or, length};
ghost use Rattle.rob_linear.specs.Beside.{exchanged};
ghost use Rattle.rob_table.specs.Tables.{row_at, HasBounds, IsUnchangedBut};

use rob_entries::{Cells, Entry};

/// Two rows exchange their entries.
fn exchange_entries<E: Entry>(rows: &mut Cells<E>, a: usize, b: usize, width: usize)
    requires a_in { a * width + width ≤ length rows.old }
    requires b_in { b * width + width ≤ length rows.old }
    ensures rows { (i k : ℕ) → k < width → row_at rows.new width i k
        ≡ row_at rows.old width (exchanged a b i) k }
    ensures size { length rows.new ≡ length rows.old }
{
    let _ = rows.len();
    for k in 0..width {
        rows.swap(a * width + k, b * width + k);
    }
}

/// Two bounds exchanged.
fn exchange_bounds(bounds: &mut [u128], a: usize, b: usize)
    requires a_in { a < length bounds.old }
    requires b_in { b < length bounds.old }
    ensures exchanged { bounds.new ≡ set (set bounds.old a (slice_index_or bounds.old b 0)) b
        (slice_index_or bounds.old a 0) }
{
    let bound = bounds[a];
    bounds[a] = bounds[b];
    bounds[b] = bound;
}

/// Two rows exchanged, with their bounds.
pub fn exchange_rows<E: Entry>(
    rows: &mut Cells<E>,
    bounds: &mut [u128],
    a: usize,
    b: usize,
    width: usize,
)
    requires a_in { a < length bounds.old }
    requires b_in { b < length bounds.old }
    requires size { length rows.old ≡ length bounds.old * width }
    ensures rows { (i k : ℕ) → k < width → row_at rows.new width i k
        ≡ row_at rows.old width (exchanged a b i) k }
    ensures bounded { (limit : ℕ) → HasBounds limit width rows.old bounds.old
        → HasBounds limit width rows.new bounds.new }
{
    exchange_entries(rows, a, b, width);
    exchange_bounds(bounds, a, b);
}

/// Copies a row over another one, with its bound.
pub fn copy_row<E: Entry>(
    rows: &mut Cells<E>,
    bounds: &mut [u128],
    from: usize,
    to: usize,
    width: usize,
)
    requires from_in { from < length bounds.old }
    requires to_in { to < length bounds.old }
    requires size { length rows.old ≡ length bounds.old * width }
    ensures row { (k : ℕ) → k < width → row_at rows.new width to k ≡ row_at rows.old width from k }
    ensures others { IsUnchangedBut to width (row_at rows.old width) (row_at rows.new width) }
    ensures bounded { (limit : ℕ) → HasBounds limit width rows.old bounds.old
        → HasBounds limit width rows.new bounds.new }
{
    copy_entries(rows, from, to, width);
    bounds[to] = bounds[from];
}

/// Copies the entries of a row over another one.
fn copy_entries<E: Entry>(rows: &mut Cells<E>, from: usize, to: usize, width: usize)
    requires from_in { from * width + width ≤ length rows.old }
    requires to_in { to * width + width ≤ length rows.old }
    ensures row { (k : ℕ) → k < width → row_at rows.new width to k ≡ row_at rows.old width from k }
    ensures others { IsUnchangedBut to width (row_at rows.old width) (row_at rows.new width) }
    ensures size { length rows.new ≡ length rows.old }
{
    let _ = rows.len();
    for k in 0..width {
        copy_entry(rows, from * width + k, to * width + k);
    }
}

/// Copies one entry over another one.
fn copy_entry<E: Entry>(rows: &mut Cells<E>, from: usize, to: usize)
    requires from_in { from < length rows.old }
    requires to_in { to < length rows.old }
    ensures copied { rows.new ≡ set rows.old to (slice_index_or rows.old from (pos 0)) }
{
    rows.set(to, rows.get(from));
}

/// Writes 0 at one place of the rows before `count`.
pub fn empty_place<E: Entry>(rows: &mut Cells<E>, place: usize, width: usize, count: usize)
    requires inside { count * width ≤ length rows.old }
    requires place_in { place < width }
    ensures zero { (i : ℕ) → i < count → row_at rows.new width i place ≡ pos 0 }
    ensures others { (i k : ℕ) → k < width → (count ≤ i) ⊎ (k ≢ place)
        → row_at rows.new width i k ≡ row_at rows.old width i k }
    ensures size { length rows.new ≡ length rows.old }
{
    let _ = rows.len();
    for i in 0..count {
        write_number(rows, i * width + place, 0);
    }
}

/// Makes a row one that is 0 but at one place and in its own entry, which stands behind the others: 1 stands there.
pub fn write_unit<E: Entry>(
    rows: &mut Cells<E>,
    bounds: &mut [u128],
    i: usize,
    place: usize,
    width: usize,
)
    requires inside { i < length bounds.old }
    requires place_in { place + 1 < width }
    requires size { length rows.old ≡ length bounds.old * width }
    ensures at_place { row_at rows.new width i place ≡ pos 1 }
    ensures own { (w : ℕ) → w + 1 ≡ width → row_at rows.new width i w ≡ pos 1 }
    ensures zero { (k : ℕ) → k + 1 < width → k ≢ place → row_at rows.new width i k ≡ pos 0 }
    ensures others { IsUnchangedBut i width (row_at rows.old width) (row_at rows.new width) }
    ensures bounded { (limit : ℕ) → 1 ≤ limit → HasBounds limit width rows.old bounds.old
        → HasBounds limit width rows.new bounds.new }
{
    let _ = rows.len();
    empty_row(rows, i, width);
    write_number(rows, i * width + place, 1);
    write_number(rows, i * width + (width - 1), 1);
    bounds[i] = 1;
}

/// Writes 0 to all entries of a row.
fn empty_row<E: Entry>(rows: &mut Cells<E>, i: usize, width: usize)
    requires inside { i * width + width ≤ length rows.old }
    ensures zero { (k : ℕ) → k < width → row_at rows.new width i k ≡ pos 0 }
    ensures others { IsUnchangedBut i width (row_at rows.old width) (row_at rows.new width) }
    ensures size { length rows.new ≡ length rows.old }
{
    let _ = rows.len();
    for k in 0..width {
        write_number(rows, i * width + k, 0);
    }
}

/// Writes a small number.
pub fn write_number<E: Entry>(rows: &mut Cells<E>, k: usize, number: i64)
    requires inside { k < length rows.old }
    requires small { nat_abs number < 2 ^ 62 }
    ensures written { rows.new ≡ set rows.old k number }
{
    rows.set(k, E::of(number));
}
