//! From digits to numbers.

ghost use Rattle.std.specs.Prelude.{◌≡◌, option_map};
ghost use Rattle.rob_number.specs.Counts.{CountsOnly};
ghost use Rattle.rob_parse.specs.Building.{FitsNumber, FitsBounds};
ghost use Rattle.rob_parse.specs.Written.{signed_fraction, lower_bound, upper_bound};
ghost use Rattle.rob_parse.specs.Written as spec;

use rob_number::{Exact, Ledger};
use rob_syntax::syntax::{Bounds, Numeral, Signed};

/// The number that digits are. It fits, since its digits do.
pub fn fraction<N: Exact, L: Ledger>(numeral: Numeral, ledger: &mut L) -> N
    requires fits { FitsNumber N.limit numeral }
    ensures value { N.value result ≡ spec.fraction numeral }
    ensures counted { CountsOnly L.ops L.wides ledger.old ledger.new }
{
    let divisor = numeral.divisor.unwrap_or(1);
    match N::from_parts(numeral.numerator as i64, divisor as i64, ledger) {
        Ok(number) => number,
        Err(_) => unreachable!(),
    }
}

/// The same with its sign.
pub fn signed<N: Exact, L: Ledger>(signed: Signed, ledger: &mut L) -> N
    requires fits { FitsNumber N.limit signed.number }
    ensures value { N.value result ≡ signed_fraction signed }
    ensures counted { CountsOnly L.ops L.wides ledger.old ledger.new }
{
    let number: N = fraction(signed.number, ledger);
    if signed.minus { number.neg() } else { number }
}

/// The lower bound, if one is written.
pub fn lower<N: Exact, L: Ledger>(bounds: Option<Bounds>, ledger: &mut L) -> Option<N>
    requires fits { FitsBounds N.limit bounds }
    ensures value { option_map N.value result ≡ lower_bound bounds }
    ensures counted { CountsOnly L.ops L.wides ledger.old ledger.new }
{
    match bounds {
        Some(Bounds::Between(both)) => Some(signed(both.lower, ledger)),
        Some(Bounds::AtLeast(bound)) => Some(signed(bound, ledger)),
        Some(Bounds::AtMost(_)) | None => None,
    }
}

/// The upper bound, if one is written.
pub fn upper<N: Exact, L: Ledger>(bounds: Option<Bounds>, ledger: &mut L) -> Option<N>
    requires fits { FitsBounds N.limit bounds }
    ensures value { option_map N.value result ≡ upper_bound bounds }
    ensures counted { CountsOnly L.ops L.wides ledger.old ledger.new }
{
    match bounds {
        Some(Bounds::Between(both)) => Some(signed(both.upper, ledger)),
        Some(Bounds::AtMost(bound)) => Some(signed(bound, ledger)),
        Some(Bounds::AtLeast(_)) | None => None,
    }
}
