//! What divides all entries of a row.

ghost use Rattle.std.specs.Prelude.{◌≡◌, ◌↔◌, IsTrue};
ghost use Rattle.rob_rows.specs.PrimitiveParts.{content};

use rob_number::gcd128;

/// The greatest common divisor of the entries, 0 where all are 0. Nothing but 1 divides 1, so the search ends there.
pub fn content_of(row: &[i128]) -> u128
    ensures content { result ≡ content row.now }
{
    let mut common: u128 = 0;
    for entry in row {
        common = gcd128(common, entry.unsigned_abs());
        if common == 1 {
            return common;
        }
    }
    common
}

/// Whether the row is in lowest terms: nothing but 1 divides all entries, and not all are 0.
pub fn is_primitive(row: &[i128]) -> bool
    ensures primitive { IsTrue result ↔ (content row.now ≡ 1) }
{
    content_of(row) == 1
}
