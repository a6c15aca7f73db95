//! What the model declares: demands, the budget's members, and orders.

ghost use Rattle.std.specs.Prelude.{◌≡◌, ◌≤◌, ◌<◌, ◌+◌, ◌-◌, [], ◌∷◌, map, IfOk};
ghost use Rattle.rob_number.specs.Counts.{CountsOnly};
ghost use Rattle.rob_meaning.specs.Places.{tabulate};
ghost use Rattle.rob_meaning.specs.RobustModel.{budget};
ghost use Rattle.rob_model.specs.View.{parameter_of, member_of, set_line_of, variable_of, adaptive_of};
ghost use Rattle.rob_gen.specs.Generated as defined;

use crate::numbers::{centre, numbered, places, whole};
use rob_model::{Adaptive, Member, Param, SetLine, Var};
use rob_number::{Exact, Ledger, List, Memory, Text};
use std::alloc::Global;

/// The demand of a place.
fn demand<N: Exact, L: Ledger>(
    alloc: Global,
    n: u32,
    place: u32,
    ledger: &mut L,
) -> Result<Param<N>, Memory>
    requires limit { 14 ≤ N.limit }
    requires place { place < 5 }
    ensures made { IfOk result (λ p. parameter_of N.value p
        ≡ defined.demand (defined.centre n) place) }
    ensures counted { CountsOnly L.ops L.wides ledger.old ledger.new }
{
    let middle = centre(n, place + 1);
    let name = numbered(alloc, b"d", place + 1)?;
    let lower: N = whole(middle - 2, ledger);
    let upper: N = whole(middle + 2, ledger);
    Ok(Param {
        name,
        lower: Some(lower),
        upper: Some(upper),
    })
}

/// The demands of the first places.
pub fn demands<N: Exact, L: Ledger>(
    alloc: Global,
    n: u32,
    count: u32,
    ledger: &mut L,
) -> Result<List<Param<N>>, Memory>
    requires limit { 14 ≤ N.limit }
    requires count { count ≤ 5 }
    ensures made { IfOk result (λ ps. map (parameter_of N.value) ps
        ≡ tabulate count (defined.demand (defined.centre n))) }
    ensures counted { CountsOnly L.ops L.wides ledger.old ledger.new }
{
    let mut list = List::new(alloc);
    for place in 0..count {
        let item = demand(alloc, n, place, ledger)?;
        list.push(item)?;
    }
    Ok(list)
}

/// The demand of a place as a member of the budget.
fn deviation<N: Exact, L: Ledger>(n: u32, place: u32, ledger: &mut L) -> Member<N>
    requires limit { 14 ≤ N.limit }
    requires place { place < 5 }
    ensures made { member_of N.value result ≡ defined.deviation (defined.centre n) place }
    ensures counted { CountsOnly L.ops L.wides ledger.old ledger.new }
{
    let middle = centre(n, place + 1);
    let centre: N = whole(middle, ledger);
    let deviation: N = whole(2, ledger);
    Member {
        param: place,
        centre,
        deviation,
    }
}

/// The members of the budget.
fn deviations<N: Exact, L: Ledger>(
    alloc: Global,
    n: u32,
    count: u32,
    ledger: &mut L,
) -> Result<List<Member<N>>, Memory>
    requires limit { 14 ≤ N.limit }
    requires count { count ≤ 5 }
    ensures made { IfOk result (λ hs. map (member_of N.value) hs
        ≡ tabulate count (defined.deviation (defined.centre n))) }
    ensures counted { CountsOnly L.ops L.wides ledger.old ledger.new }
{
    let mut list = List::new(alloc);
    for place in 0..count {
        let item = deviation(n, place, ledger);
        list.push(item)?;
    }
    Ok(list)
}

/// The statements on the set: one budget.
pub fn budgets<N: Exact, L: Ledger>(
    alloc: Global,
    n: u32,
    count: u32,
    ledger: &mut L,
) -> Result<List<SetLine<N>>, Memory>
    requires limit { 14 ≤ N.limit }
    requires count { count ≤ 5 }
    ensures made { IfOk result (λ cs. map (set_line_of N.value) cs
        ≡ budget (defined.whole 1) (tabulate count (defined.deviation (defined.centre n))) ∷ []) }
    ensures counted { CountsOnly L.ops L.wides ledger.old ledger.new }
{
    let limit: N = whole(1, ledger);
    let members = deviations(alloc, n, count, ledger)?;
    let mut list = List::new(alloc);
    list.push(SetLine::Budget { limit, members })?;
    Ok(list)
}

/// The variables: the first order.
pub fn first_orders<N: Exact, L: Ledger>(
    alloc: Global,
    ledger: &mut L,
) -> Result<List<Var<N>>, Memory>
    requires limit { 14 ≤ N.limit }
    ensures made { IfOk result (λ xs. map (variable_of N.value) xs ≡ defined.first_order ∷ []) }
    ensures counted { CountsOnly L.ops L.wides ledger.old ledger.new }
{
    let mut name = Text::new(alloc);
    name.push(b"x")?;
    let least: N = whole(0, ledger);
    let mut list = List::new(alloc);
    list.push(Var {
        name,
        lower: Some(least),
        upper: None,
    })?;
    Ok(list)
}

/// The order of a later period.
fn later_order<N: Exact, L: Ledger>(
    alloc: Global,
    later: u32,
    ledger: &mut L,
) -> Result<Adaptive<N>, Memory>
    requires limit { 14 ≤ N.limit }
    requires later { later < 4 }
    ensures made { IfOk result (λ y. adaptive_of N.value y ≡ defined.later_order later) }
    ensures counted { CountsOnly L.ops L.wides ledger.old ledger.new }
{
    let name = numbered(alloc, b"y", later + 2)?;
    let on = places(alloc, later + 1)?;
    let least: N = whole(0, ledger);
    Ok(Adaptive {
        name,
        on,
        lower: Some(least),
        upper: None,
    })
}

/// The orders of the first later periods.
pub fn later_orders<N: Exact, L: Ledger>(
    alloc: Global,
    count: u32,
    ledger: &mut L,
) -> Result<List<Adaptive<N>>, Memory>
    requires limit { 14 ≤ N.limit }
    requires count { count ≤ 4 }
    ensures made { IfOk result (λ ys. map (adaptive_of N.value) ys
        ≡ tabulate count defined.later_order) }
    ensures counted { CountsOnly L.ops L.wides ledger.old ledger.new }
{
    let mut list = List::new(alloc);
    for later in 0..count {
        let item = later_order(alloc, later, ledger)?;
        list.push(item)?;
    }
    Ok(list)
}
