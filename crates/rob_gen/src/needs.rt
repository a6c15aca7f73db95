//! The model's rows.

ghost use Rattle.std.specs.Prelude.{◌≡◌, ◌≤◌, ◌<◌, map, IfOk};
ghost use Rattle.rob_meaning.specs.Places.{tabulate};
ghost use Rattle.rob_model.specs.View.{row_of};
ghost use Rattle.rob_gen.specs.Generated as defined;

use crate::expressions::{all_demands, all_orders};
use crate::numbers::numbered;
use rob_model::{Rel, RowDef};
use rob_number::{Exact, List, Memory};
use std::alloc::Global;

/// The row of a place.
fn need<N: Exact>(alloc: Global, place: u32) -> Result<RowDef<N>, Memory>
    requires place { place < 5 }
    ensures made { IfOk result (λ r. row_of N.value r ≡ defined.need place) }
{
    let name = numbered(alloc, b"need", place + 1)?;
    let left = all_orders(alloc, place + 1)?;
    let rel = Rel::AtLeast;
    let right = all_demands(alloc, place + 1)?;
    Ok(RowDef {
        name,
        left,
        rel,
        right,
    })
}

/// The rows of the first places.
pub fn needs<N: Exact>(alloc: Global, count: u32) -> Result<List<RowDef<N>>, Memory>
    requires count { count ≤ 5 }
    ensures made { IfOk result (λ rs. map (row_of N.value) rs ≡ tabulate count defined.need) }
{
    let mut list = List::new(alloc);
    for place in 0..count {
        let item = need(alloc, place)?;
        list.push(item)?;
    }
    Ok(list)
}
