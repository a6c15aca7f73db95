//! The sizes of a row's entries.

ghost use Rattle.std.specs.Prelude.{◌≡◌, ◌^◌, ◌<◌, ◌≤◌, nat_abs, Any};
ghost use Rattle.std.specs.Bool.{OnTrue, OnFalse};
ghost use Rattle.rob_rows.specs.PrimitiveParts.{IsWithin, HasWideEntry};

/// The greatest size of an entry, 0 where there is none.
pub fn largest(row: &[i64]) -> u64
    ensures bound { IsWithin result row.now }
    ensures reached { 0 < result → Any (λ entry. nat_abs entry ≡ result) row.now }
    ensures size { result ≤ 2 ^ 63 }
{
    let mut largest = 0;
    for entry in row {
        largest = entry.unsigned_abs().max(largest);
    }
    largest
}

/// Whether no entry is over the limit in size. It looks at all of them, which is quicker than to stop at the first.
pub fn is_within(row: &[i64], limit: u64) -> bool
    ensures within { OnTrue result (IsWithin limit row.now) }
    ensures wide { OnFalse result (HasWideEntry limit row.now) }
{
    largest(row) <= limit
}
