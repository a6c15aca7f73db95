//! A row over the greatest common divisor of its entries, in place.

ghost use Rattle.std.specs.Prelude.{◌≡◌, ◌/◌, ◌^◌, ◌<◌, ◌≤◌, ◌*ℤ◌, pos, nat_abs, IfOk, OnOk, OnErr};
ghost use Rattle.std.specs.Int.{◌∣◌};
ghost use Rattle.rob_rows.specs.PrimitiveParts.{content, IsPrimitivePart, IsWithin, HasWidePart};

use crate::divisor::Divisor;
use crate::sizes::is_within;
use rob_number::Wide;

/// Puts the row's primitive part in its place. After `Wide` the entries are open.
pub fn reduce(row: &mut [i64], limit: u64) -> Result<(), Wide>
    requires limit { limit < 2 ^ 62 }
    ensures part { OnOk result (IsPrimitivePart row.new row.old) }
    ensures within { OnOk result (IsWithin limit row.new) }
    ensures wide { OnErr result (HasWidePart limit row.old) }
{
    let common = content_of(row);
    if common.value() <= 1 {
        return if is_within(row, limit) {
            Ok(())
        } else {
            Err(Wide)
        };
    }
    divide(row, common, limit)
}

/// The same of a row within the limit, whose primitive part is so too.
pub fn to_lowest_terms(row: &mut [i64], limit: u64)
    requires limit { limit < 2 ^ 62 }
    requires within { IsWithin limit row.old }
    ensures part { IsPrimitivePart row.new row.old }
    ensures within { IsWithin limit row.new }
{
    let common = content_of(row);
    if common.value() <= 1 {
        return;
    }
    match divide(row, common, limit) {
        Ok(()) => {}
        Err(_) => unreachable!(),
    }
}

/// Divides the row by what divides all its entries.
fn divide(row: &mut [i64], common: Divisor, limit: u64) -> Result<(), Wide>
    requires limit { limit < 2 ^ 62 }
    requires content { common.value ≡ content row.old }
    requires positive { 0 < common.value }
    ensures part { OnOk result (IsPrimitivePart row.new row.old) }
    ensures within { OnOk result (IsWithin limit row.new) }
    ensures wide { OnErr result (HasWidePart limit row.old) }
{
    for entry in row.iter_mut() {
        *entry = quotient_within(*entry as i128, common, limit)?;
    }
    Ok(())
}

/// The greatest common divisor of the entries. Most of them are 0, which each number divides, and nothing but 1 divides
/// 1, so the search ends there.
fn content_of(row: &[i64]) -> Divisor
    ensures content { result.value ≡ content row.now }
{
    let mut common = Divisor::new(0);
    for entry in row {
        if *entry == 0 {
            continue;
        }
        common = common.common(entry.unsigned_abs() as u128);
        if common.value() == 1 {
            return common;
        }
    }
    common
}

/// The entry over a divisor of it. `Wide` where the quotient is over the limit. Most entries of a row are 0, so this is
/// looked at first.
pub fn quotient_within(entry: i128, divisor: Divisor, limit: u64) -> Result<i64, Wide>
    requires limit { limit < 2 ^ 62 }
    requires positive { 0 < divisor.value }
    requires divides { divisor.value ∣ nat_abs entry }
    ensures quotient { IfOk result (λ quotient. pos divisor.value *ℤ quotient ≡ entry) }
    ensures within { IfOk result (λ quotient. nat_abs quotient ≤ limit) }
    ensures wide { OnErr result (limit < nat_abs entry / divisor.value) }
{
    if entry == 0 {
        return Ok(0);
    }
    let size = quotient_of(entry.unsigned_abs(), divisor);
    if size > limit as u128 {
        return Err(Wide);
    }
    let magnitude = size as i64;
    if entry < 0 {
        Ok(-magnitude)
    } else {
        Ok(magnitude)
    }
}

/// The quotient, without a division by 1.
fn quotient_of(size: u128, divisor: Divisor) -> u128
    requires positive { 0 < divisor.value }
    requires divides { divisor.value ∣ size }
    ensures quotient { result ≡ size / divisor.value }
{
    if divisor.value() == 1 {
        size
    } else {
        divisor.quotient(size)
    }
}
