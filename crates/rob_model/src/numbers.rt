//! Small whole numbers, the number at a place of a list, sizes, and the order.

ghost use Rattle.std.specs.Prelude.{◌≡◌, map};
ghost use Rattle.rob_number.specs.Counts.{NeverFell};
ghost use Rattle.rob_meaning.specs.Places.{0ℚ, 1ℚ, at};
ghost use Rattle.rob_meaning.specs.UncertaintySet.{abs_ℚ};
ghost use Rattle.rob_model.specs.Within.{is_at_most};

use rob_number::{Exact, Ledger};

/// 0, which fits every limit.
pub fn zero<N: Exact, L: Ledger>(ledger: &mut L) -> N
    ensures value { N.value result ≡ 0ℚ }
    ensures counted { NeverFell L.ops L.wides ledger.old ledger.new }
{
    match N::from_parts(0, 1, ledger) {
        Ok(zero) => zero,
        Err(_) => unreachable!(),
    }
}

/// 1, which fits every limit.
pub fn one<N: Exact, L: Ledger>(ledger: &mut L) -> N
    ensures value { N.value result ≡ 1ℚ }
    ensures counted { NeverFell L.ops L.wides ledger.old ledger.new }
{
    match N::from_parts(1, 1, ledger) {
        Ok(one) => one,
        Err(_) => unreachable!(),
    }
}

/// The number at a place, from 0. What the list lacks counts as 0.
pub fn number_at<N: Exact, L: Ledger>(numbers: &[N], place: usize, ledger: &mut L) -> N
    ensures value { N.value result ≡ at (map N.value numbers.now) place }
    ensures counted { NeverFell L.ops L.wides ledger.old ledger.new }
{
    if place < numbers.len() {
        numbers[place]
    } else {
        zero(ledger)
    }
}

/// The size of a number, without its sign.
pub fn size<N: Exact>(number: N) -> N
    ensures value { N.value result ≡ abs_ℚ (N.value number) }
{
    if number.sign() < 0 {
        number.neg()
    } else {
        number
    }
}

/// Whether a number is at most another.
pub fn at_most<N: Exact>(a: N, b: N) -> bool
    ensures test { result ≡ is_at_most (N.value a) (N.value b) }
{
    a.cmp(&b).is_le()
}
