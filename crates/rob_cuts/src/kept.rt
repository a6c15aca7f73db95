//! Whether a form is kept at its worst case, and what shows that all are.

ghost use Rattle.std.specs.Prelude.{◌≤◌, ◌-◌, ◌^◌, nat_abs};
ghost use Rattle.std.specs.Bool.{Decides};
ghost use Rattle.rob_algebra.specs.Fraction.{of_int, ◌+ℚ◌, ◌≤ℚ◌};
ghost use Rattle.rob_meaning.specs.Places.{0ℚ};

use rob_cert::Cover;
use rob_model::Plan;
use rob_number::fraction::long_product;
use rob_number::{Exact, List};
use rob_worst::sums::long_sum;

/// What shows that all forms are kept: covers, as often as the scale says.
#[derive(Debug, Drop)]
pub struct Kept<N> {
    pub scale: N,
    pub covers: List<Cover<N>>,
}

/// A plan, and what shows that it keeps all forms.
#[derive(Debug, Drop)]
pub struct Covered<N> {
    pub plan: Plan<N>,
    pub kept: Kept<N>,
}

/// Whether a peak and a constant part sum to at most 0.
pub fn is_kept<N: Exact>(peak: N, constant: i64) -> bool
    requires small { nat_abs constant ≤ 2 ^ 62 - 1 }
    ensures kept { Decides result ((N.value peak +ℚ of_int constant) ≤ℚ 0ℚ) }
{
    long_sum(peak.num(), long_product(constant, peak.den())) <= 0
}
