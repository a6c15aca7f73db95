//! The primitive part of a combination of two rows, without a ledger.

ghost use Rattle.std.specs.Prelude.{◌^◌, ◌<◌, ◌≤◌, nat_abs, length, OnOk, OnErr};
ghost use Rattle.rob_rows.specs.PrimitiveParts.{combination, AreRowsWithin, IsPrimitivePart, IsWithin, HasWidePart};

use crate::factors::{Factors, lowest};
use crate::reduction::reduce;
use crate::{general, narrow};
use rob_number::Wide;

/// Writes the primitive part of `p * top - q * low` to `out`. After `Wide` the entries of `out` are open.
pub fn combine_rows(
    out: &mut [i64],
    p: i64,
    top: &[i64],
    q: i64,
    low: &[i64],
    limit: u64,
) -> Result<(), Wide>
    requires limit { limit < 2 ^ 62 }
    requires p_size { nat_abs p ≤ limit }
    requires q_size { nat_abs q ≤ limit }
    requires rows { AreRowsWithin limit (length out.old) top.now low.now }
    ensures part { OnOk result (IsPrimitivePart out.new (combination p top.now q low.now)) }
    ensures within { OnOk result (IsWithin limit out.new) }
    ensures wide { OnErr result (HasWidePart limit (combination p top.now q low.now)) }
{
    let factors = lowest(p, q);
    combine_lowest(out, factors, top, low, limit)
}

/// The same, of any factors of 62 bits: a copy of `top` where that is all, in 64 bits where the entries fit, else in
/// 128.
pub fn combine_lowest(
    out: &mut [i64],
    factors: Factors,
    top: &[i64],
    low: &[i64],
    limit: u64,
) -> Result<(), Wide>
    requires limit { limit < 2 ^ 62 }
    requires p_size { nat_abs factors.p < 2 ^ 62 }
    requires q_size { nat_abs factors.q < 2 ^ 62 }
    requires rows { AreRowsWithin limit (length out.old) top.now low.now }
    ensures part { OnOk result (IsPrimitivePart out.new
        (combination factors.p top.now factors.q low.now)) }
    ensures within { OnOk result (IsWithin limit out.new) }
    ensures wide { OnErr result (HasWidePart limit
        (combination factors.p top.now factors.q low.now)) }
{
    if factors.p == 1 && factors.q == 0 {
        out.copy_from_slice(top);
        return reduce(out, limit);
    }
    if narrow::is_narrow(factors, top, low) {
        narrow::fill(out, factors, top, low);
        return reduce(out, limit);
    }
    general::write_part(out, factors, top, low, limit)
}
