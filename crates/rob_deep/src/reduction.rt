//! A row over the greatest common divisor of its entries, in place.

ghost use Rattle.std.specs.Prelude.{◌^◌, ◌<◌, OnOk, OnErr};
ghost use Rattle.rob_rows.specs.PrimitiveParts.{IsPrimitivePart, IsWithin, HasWidePart};

use crate::content::content_of;
use crate::divisor::Divisor;
use crate::quotient::quotient_within;
use crate::signed::Signed;
use crate::sizes::is_within;
use rob_number::Wide;

/// Puts the row's primitive part in its place. After `Wide` the entries are open.
pub fn reduce(row: &mut [i128], limit: u128) -> Result<(), Wide>
    requires limit { limit < 2 ^ 126 }
    ensures part { OnOk result (IsPrimitivePart row.new row.old) }
    ensures within { OnOk result (IsWithin limit row.new) }
    ensures wide { OnErr result (HasWidePart limit row.old) }
{
    let common = content_of(row);
    if common <= 1 {
        return if is_within(row, limit) {
            Ok(())
        } else {
            Err(Wide)
        };
    }
    let divisor = Divisor::new(common);
    for entry in row.iter_mut() {
        *entry = quotient_within(Signed::of(*entry), divisor, limit)?;
    }
    Ok(())
}

/// The same of a row within the limit, whose primitive part is so too.
pub fn to_lowest_terms(row: &mut [i128], limit: u128)
    requires limit { limit < 2 ^ 126 }
    requires within { IsWithin limit row.old }
    ensures part { IsPrimitivePart row.new row.old }
    ensures within { IsWithin limit row.new }
{
    match reduce(row, limit) {
        Ok(()) => {}
        Err(_) => unreachable!(),
    }
}
