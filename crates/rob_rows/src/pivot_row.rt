//! The row of a fraction-free pivot.

ghost use Rattle.std.specs.Prelude.{◌≤◌, nat_abs, length, OnOk, OnErr};
ghost use Rattle.rob_number.specs.Counts.{CountsOne};
ghost use Rattle.rob_rows.specs.PrimitiveParts.{combination, AreRowsWithin, IsPrimitivePart, IsWithin, HasWidePart};

use crate::combination::combine_rows;
use rob_number::{Exact, Ledger, Wide};

/// Writes `p * top - q * low`, divided by the greatest common divisor of its entries, to `out`: the row operation of a
/// fraction-free pivot (Edmonds 1967). Where all entries are 0, it writes zeros. It takes no memory. `Wide` where an
/// entry of that row is over the limit; after it the entries of `out` are open.
pub fn combine<N: Exact, L: Ledger>(
    out: &mut [i64],
    p: i64,
    top: &[i64],
    q: i64,
    low: &[i64],
    ledger: &mut L,
) -> Result<(), Wide>
    requires p_within { nat_abs p ≤ N.limit }
    requires q_within { nat_abs q ≤ N.limit }
    requires rows { AreRowsWithin N.limit (length out.old) top.now low.now }
    // The row that the pivot needs, and no multiple of it.
    ensures row { OnOk result (IsPrimitivePart out.new (combination p top.now q low.now)) }
    ensures within { OnOk result (IsWithin N.limit out.new) }
    // `Wide` only where that row, of which there is one, has an entry over the limit.
    ensures wide { OnErr result (HasWidePart N.limit (combination p top.now q low.now)) }
    ensures counted { CountsOne L.ops L.wides ledger.old ledger.new result }
{
    ledger.op();
    let written = combine_rows(out, p, top, q, low, N::LIMIT as u64);
    if written.is_err() {
        ledger.wide();
    }
    written
}
