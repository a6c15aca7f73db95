//! The joint scenario that a record is.

ghost use Rattle.std.specs.Prelude.{◌≡◌, map, IfOk, option_map};
ghost use Rattle.csv.specs.Records.{fields_of};
ghost use Rattle.rob_number.specs.Counts.{NeverFell};
ghost use Rattle.rob_replay.specs.Fields.{numbers_in};
ghost use Rattle.rob_replay.specs.Headers.{scenario_at};

use crate::field::read_number;
use csv::ByteRecord;
use rob_model::Scenario;
use rob_model::numbers::number_at;
use rob_number::{Exact, Ledger, List, Memory};
use std::alloc::Global;

/// The numbers of a record, if each field is one.
pub fn read_numbers<N: Exact, L: Ledger>(
    alloc: Global,
    row: &ByteRecord,
    ledger: &mut L,
) -> Result<Option<List<N>>, Memory>
    ensures numbers { IfOk result (λ o. option_map (λ xs. map N.value xs) o
        ≡ numbers_in N.limit (fields_of row.now)) }
    ensures counted { NeverFell L.ops L.wides ledger.old ledger.new }
{
    let mut numbers = List::new(alloc);
    let len = row.len();
    for i in 0..len {
        match row.get(i) {
            None => return Ok(None),
            Some(field) => match read_number::<N, L>(field, ledger) {
                None => return Ok(None),
                Some(number) => numbers.push(number)?,
            },
        }
    }
    Ok(Some(numbers))
}

/// The scenario: for each joint parameter the number at its place.
pub fn in_order<N: Exact, L: Ledger>(
    alloc: Global,
    places: &[usize],
    numbers: &[N],
    ledger: &mut L,
) -> Result<Scenario<N>, Memory>
    ensures scenario { IfOk result (λ u. map N.value u.values
        ≡ scenario_at places.now (map N.value numbers.now)) }
    ensures counted { NeverFell L.ops L.wides ledger.old ledger.new }
{
    let mut values = List::new(alloc);
    for place in places {
        values.push(number_at(numbers, *place, ledger))?;
    }
    Ok(Scenario { values })
}
