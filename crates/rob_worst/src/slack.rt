//! The slack of a form at its worst scenario.

ghost use Rattle.std.specs.Prelude.{◌≢◌, ◌≡◌, ◌≤◌, ◌⊎◌, pos, nat_abs, IfOk, OnOk, OnErr};
ghost use Rattle.rob_algebra.specs.Fraction.{of_int, ◌+ℚ◌};
ghost use Rattle.rob_algebra.specs.Width.{Fits, IsWide};
ghost use Rattle.rob_number.specs.Counts.{CountsWide};
ghost use Rattle.rob_runs.specs.Spots.{slack_of};

use rob_dualize::numbers::whole;
use rob_number::{Exact, Ledger, Wide};

/// The slack of the form at its worst scenario, from what `worst` tells of it: minus the sum of the peak and the
/// constant part, over the scale. `Wide` comes exactly where that sum or the quotient is wide.
pub fn slack<N: Exact, L: Ledger>(
    scale: N,
    peak: N,
    constant: i64,
    ledger: &mut L,
) -> Result<N, Wide>
    requires scale { N.value scale ≢ of_int (pos 0) }
    requires constant { nat_abs constant ≤ N.limit }
    ensures slack { IfOk result (λ slack. N.value slack
        ≡ slack_of (N.value scale) (N.value peak) (of_int constant)) }
    // An answer comes only where neither the sum nor the quotient is wide, and a refusal only where one of them is.
    ensures fits { OnOk result (Fits N.limit (N.value peak +ℚ of_int constant)
        × Fits N.limit (slack_of (N.value scale) (N.value peak) (of_int constant))) }
    ensures wide { OnErr result (IsWide N.limit (N.value peak +ℚ of_int constant)
        ⊎ IsWide N.limit (slack_of (N.value scale) (N.value peak) (of_int constant))) }
    ensures counted { CountsWide L.ops L.wides ledger.old ledger.new result }
{
    match peak.add(whole(constant), ledger) {
        Ok(sum) => sum.neg().div(scale, ledger),
        Err(Wide) => Err(Wide),
    }
}
