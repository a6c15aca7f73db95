//! Parts of sums, and the tests that sums are put to.

ghost use Rattle.std.specs.Prelude.{◌≡◌, ◌≤◌, map, nat_abs};
ghost use Rattle.rob_algebra.specs.Fraction.{of_int, ◌*ℚ◌};
ghost use Rattle.rob_algebra.specs.FractionOrder.{eq_ℚ};
ghost use Rattle.rob_algebra.specs.Width.{kept};
ghost use Rattle.rob_check.specs.Sums.{is_nonnegative, is_positive, with_part};
ghost use Rattle.rob_meaning.specs.Places.{at, Each};
ghost use Rattle.rob_number.specs.Answer.{answer};
ghost use Rattle.rob_number.specs.Counts.{CountsTold};

use rob_number::{Exact, Ledger, Wide};

/// Whether a number is above 0.
pub fn is_positive<N: Exact>(number: N) -> bool
    ensures test { result ≡ is_positive (N.value number) }
{
    number.sign() > 0
}

/// Whether a number is at least 0.
pub fn is_nonnegative<N: Exact>(number: N) -> bool
    ensures test { result ≡ is_nonnegative (N.value number) }
{
    number.sign() >= 0
}

/// Whether two numbers are the same.
pub fn is_same<N: Exact>(a: N, b: N) -> bool
    ensures test { result ≡ eq_ℚ (N.value a) (N.value b) }
{
    a == b
}

/// The sum so far with a number times an entry. An entry of 0 changes nothing, so it costs nothing.
pub fn add_product<N: Exact, L: Ledger>(
    so_far: N,
    number: N,
    entry: i64,
    ledger: &mut L,
) -> Result<N, Wide>
    requires fits { nat_abs entry ≤ N.limit }
    ensures exact { answer N.value result
        ≡ with_part N.limit (N.value so_far) (kept N.limit (N.value number *ℚ of_int entry)) }
    ensures counted { CountsTold L.ops L.wides ledger.old ledger.new result }
{
    if entry == 0 {
        return Ok(so_far);
    }
    let whole = N::from_parts(entry, 1, ledger)?;
    let product = number.mul(whole, ledger)?;
    so_far.add(product, ledger)
}

/// The sum so far with a number times the entry of a row in a column, from 0. Past the row's end nothing is added.
pub fn add_entry<N: Exact, L: Ledger>(
    so_far: N,
    number: N,
    row: &[i64],
    column: usize,
    ledger: &mut L,
) -> Result<N, Wide>
    requires fits { Each (λ a. nat_abs a ≤ N.limit) row.now }
    ensures exact { answer N.value result
        ≡ with_part N.limit (N.value so_far)
        (kept N.limit (N.value number *ℚ at (map of_int row.now) column)) }
    ensures counted { CountsTold L.ops L.wides ledger.old ledger.new result }
{
    match row.get(column) {
        Some(entry) => add_product(so_far, number, *entry, ledger),
        None => Ok(so_far),
    }
}
