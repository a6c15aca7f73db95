//! A row that is multiplied, and less another row, in place, where the sizes of both show that no entry can leave the
//! type; and what is then marked.

ghost use Rattle.std.specs.Prelude.{◌≡◌, ◌+◌, ◌*◌, ◌<◌, ◌≤◌, ◌↔◌, ◌*ℤ◌, ◌-ℤ◌, ◌<ℤ◌, ℕ, pos, nat_abs, map, length, IsFalse};
ghost use Rattle.rob_linear.specs.Vectors.{at};
ghost use Rattle.rob_entries.specs.Maps.{AreMarked};
ghost use Rattle.rob_entries.specs.Updates.{AreListed, IsNarrowBy};

use crate::entry::Entry;

/// Takes q times the other row off the row, which begins at `start`, in the places where the other one is not 0, and
/// marks the entries there.
pub fn subtract<E: Entry>(
    row: &mut [E],
    marks: &mut [bool],
    start: usize,
    q: E,
    other: &[E],
    places: &[usize],
)
    requires lengths { length other.now ≡ length row.old }
    requires marks_in { start + length row.old ≤ length marks.old }
    requires listed { AreListed (length other.now) (at (map E.value other.now)) places.now }
    requires narrow { IsNarrowBy E.top (length row.old) (pos 1) (E.value q)
        (at (map E.value row.old))
        (at (map E.value other.now)) }
    ensures entries { (k : ℕ) → k < length row.old → at (map E.value row.new) k
        ≡ at (map E.value row.old) k -ℤ (E.value q *ℤ at (map E.value other.now) k) }
    ensures marked { AreMarked start (length row.old) (at (map E.value row.new))
        (at (map E.value other.now)) marks.old
        marks.new }
{
    let _ = marks.len();
    let once = E::of(1);
    for k in places {
        let entry = E::fused(once, row[*k], q, other[*k]);
        row[*k] = entry;
        marks[start + *k] = mark_of(entry);
    }
}

/// Makes the row p times itself.
pub fn scale<E: Entry>(row: &mut [E], p: E)
    requires positive { pos 0 <ℤ E.value p }
    requires narrow { (k : ℕ) → k < length row.old
        → nat_abs (E.value p) * nat_abs (at (map E.value row.old) k) ≤ E.top }
    ensures entries { (k : ℕ) → k < length row.old → at (map E.value row.new) k
        ≡ E.value p *ℤ at (map E.value row.old) k }
{
    if p.size() == 1 {
        return;
    }
    scale_entries(row, p);
}

/// The same, entry by entry.
fn scale_entries<E: Entry>(row: &mut [E], p: E)
    requires narrow { (k : ℕ) → k < length row.old
        → nat_abs (E.value p) * nat_abs (at (map E.value row.old) k) ≤ E.top }
    ensures entries { (k : ℕ) → k < length row.old → at (map E.value row.new) k
        ≡ E.value p *ℤ at (map E.value row.old) k }
{
    let zero = E::of(0);
    for k in 0..row.len() {
        row[k] = E::fused(p, row[k], zero, zero);
    }
}

/// The mark of an entry: off where it is 0.
pub fn mark_of<E: Entry>(entry: E) -> bool
    ensures off { IsFalse result ↔ (E.value entry ≡ pos 0) }
{
    !entry.is_zero()
}

/// Marks the entries of a row, which begins at `start`, in the places where the other one is not 0.
pub fn mark<E: Entry>(marks: &mut [bool], start: usize, row: &[E], other: &[E], places: &[usize])
    requires lengths { length other.now ≡ length row.now }
    requires marks_in { start + length row.now ≤ length marks.old }
    requires listed { AreListed (length other.now) (at (map E.value other.now)) places.now }
    ensures marked { AreMarked start (length row.now) (at (map E.value row.now))
        (at (map E.value other.now)) marks.old
        marks.new }
{
    let _ = marks.len();
    for k in places {
        marks[start + *k] = mark_of(row[*k]);
    }
}
