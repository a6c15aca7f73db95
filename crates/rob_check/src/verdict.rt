//! The verdict on a certificate.

ghost use Rattle.std.specs.Prelude.{◌≡◌};
ghost use Rattle.std.specs.Result.{result_ok};
ghost use Rattle.rob_check.specs.Verdicts.{decided};
ghost use Rattle.rob_check.specs.declared.verdict.Verdict.TheVariants as Is;

use rob_model::Place;
use rob_number::Wide;

/// What the check of a certificate says. Its conditions are tried in order.
#[derive(Clone, Copy, Debug, PartialEq, Eq)]
pub enum Verdict {
    /// All conditions hold, and no number on the way is wide.
    Accepted,
    /// That condition is the first that fails, and no number on the way to it is wide.
    Rejected(Place),
    /// A number of that condition is wide, and all before it hold.
    TooWide(Place),
}

/// The verdict on one condition.
pub fn judge(place: Place, holds: Result<bool, Wide>) -> Verdict
    ensures exact { result ≡ decided place (result_ok holds) Is.Accepted }
{
    match holds {
        Ok(true) => Verdict::Accepted,
        Ok(false) => Verdict::Rejected(place),
        Err(Wide) => Verdict::TooWide(place),
    }
}
