//! A scan of one row's marks for the lowest column where a number may not be 0. Most rows have few such numbers, so
//! many marks are looked at together.

ghost use Rattle.std.specs.Prelude.{◌≡◌, ◌+◌, ◌<◌, ◌≤◌, ℕ, true, false, IsTrue, IsFalse, length, slice_index_or};
ghost use Rattle.rob_entries.specs.Choices.{IsFloor};

/// How many marks are looked at together.
const PART: usize = 16;

/// Whether a mark is on.
#[inline(always)]
fn has_some(marks: &[bool]) -> bool
    ensures none { IsFalse result → (k : ℕ) → k < length marks.now → slice_index_or marks.now k true
        ≡ false }
{
    let mut some = false;
    for k in 0..marks.len() {
        some |= marks[k];
    }
    some
}

/// The column, where its mark is on and it is one from `low` on that comes before the best one so far; else that one.
#[inline(always)]
fn lower_marked(best: usize, mark: bool, column: usize, low: usize) -> usize
    ensures low { result ≤ best }
    ensures lower { IsTrue mark → low ≤ column → result ≤ column }
{
    if mark && low <= column && column < best {
        column
    } else {
        best
    }
}

/// The lowest column, from `low` on, near a mark that is on among the places from `from` to `to`, or the given one
/// where none is lower.
fn lowest_between(
    marks: &[bool],
    near: &[usize],
    from: usize,
    to: usize,
    low: usize,
    before: usize,
) -> usize
    requires inside { from ≤ to }
    requires marks_in { to ≤ length marks.now }
    requires near_in { to ≤ length near.now }
    ensures low { result ≤ before }
    ensures floor { IsFloor marks.now (λ k. slice_index_or near.now k 0) from to low result }
{
    let mut best = before;
    for k in from..to {
        best = lower_marked(best, marks[k], near[k], low);
    }
    best
}

/// The same among so many places.
fn lowest_in_part(marks: &[bool], near: &[usize], from: usize, low: usize, before: usize) -> usize
    requires marks_in { from + 16 ≤ length marks.now }
    requires near_in { from + 16 ≤ length near.now }
    ensures low { result ≤ before }
    ensures floor { IsFloor marks.now (λ k. slice_index_or near.now k 0) from
        (from + 16) low result }
{
    if has_some(&marks[from..from + PART]) {
        lowest_between(marks, near, from, from + PART, low, before)
    } else {
        before
    }
}

/// The same among all places.
pub fn lowest_marked(marks: &[bool], near: &[usize], low: usize, before: usize) -> usize
    requires near_in { length marks.now ≤ length near.now }
    ensures low { result ≤ before }
    ensures floor { IsFloor marks.now (λ k. slice_index_or near.now k 0) 0
        (length marks.now) low result }
{
    let parts = marks.len() / PART;
    let mut best = before;
    for part in 0..parts {
        best = lowest_in_part(marks, near, part * PART, low, best);
    }
    lowest_between(marks, near, parts * PART, marks.len(), low, best)
}
