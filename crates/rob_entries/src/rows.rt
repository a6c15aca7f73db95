//! One row of entries: its negation, and the lowest column where it is negative.

ghost use Rattle.std.specs.Prelude.{◌≡◌, ℕ, ◌<◌, ◌≤◌, ◌≤ℤ◌, ◌<ℤ◌, pos, neg_ℤ, map, min, length, slice_index_or};
ghost use Rattle.rob_linear.specs.Vectors.{at};
ghost use Rattle.rob_rows.specs.PrimitiveParts.{IsWithin};
ghost use Rattle.rob_entries.specs.Choices.{IsLowest};

use crate::entry::Entry;

/// Negates the entries.
pub fn negate<E: Entry>(row: &mut [E], bound: u128)
    requires within { IsWithin bound (map E.value row.old) }
    requires bound { bound ≤ E.top }
    ensures negated { (k : ℕ) → k < length row.old → at (map E.value row.new) k
        ≡ neg_ℤ (at (map E.value row.old) k) }
{
    for k in 0..row.len() {
        row[k] = row[k].minus();
    }
}

/// The column, where the entry is negative and the column comes before the best one so far; else that one.
fn lower<E: Entry>(best: usize, entry: E, column: usize) -> usize
    ensures stays { (pos 0 ≤ℤ E.value entry) → result ≡ best }
    ensures lower { (E.value entry <ℤ pos 0) → result ≡ min best column }
{
    if entry.is_negative() && column < best {
        column
    } else {
        best
    }
}

/// The lowest column with a negative entry, or the given one where none is lower. `near` names the column of each
/// place.
pub fn lowest_column<E: Entry>(row: &[E], near: &[usize], before: usize) -> usize
    requires near_in { length row.now ≤ length near.now }
    ensures lowest { IsLowest (at (map E.value row.now)) (λ k. slice_index_or near.now k 0)
        (length row.now) before
        result }
{
    let mut best = before;
    for k in 0..row.len() {
        best = lower(best, row[k], near[k]);
    }
    best
}
