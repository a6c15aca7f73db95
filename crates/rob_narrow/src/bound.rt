//! The bound on the entries of a program's rows.

ghost use Rattle.std.specs.Prelude.{◌≡◌, ◌<◌, ◌≤◌};
ghost use Rattle.std.specs.Option.{MatchOption};
ghost use Rattle.rob_bounds.specs.Bounds.{row_bound};

use crate::power::power;

/// With `m` rows and numbers of size `a`: `((m + 1) * a) ^ (m + 1)`, or nothing where that is over the limit.
pub fn bound_of(rows: usize, greatest: u64, limit: u64) -> Option<u64>
    requires positive { 0 < greatest }
    ensures bound { MatchOption result (limit < row_bound rows greatest)
        (λ bound. (bound ≡ row_bound rows greatest) × (bound ≤ limit)) }
{
    let factor = (rows as u128 + 1) * greatest as u128;
    power(factor, rows, limit)
}
