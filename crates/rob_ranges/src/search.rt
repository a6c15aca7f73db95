//! Whether a form reaches a bound somewhere in nested ranges, as far as that is found for what may be spent: from the
//! ends of the ranges where these tell, else with values put in for the outermost range, each of which has a price.

ghost use Rattle.std.specs.Prelude.{◌≡◌, ◌-◌, nat_lt, not, if◌then◌else◌, IfOk, OnOk};
ghost use Rattle.rob_index.specs.Search.{search};
ghost use Rattle.rob_ranges.specs.Seeking.{seek};

use crate::form::{Ends, Form};
use crate::reach::{from_ends, in_front};
use crate::run::Run;
use crate::whole::Whole;
use rob_number::Memory;
use std::alloc::Global;

/// What putting in a value costs, and what is left to be spent.
#[derive(Clone, Copy, Debug)]
pub struct Purse {
    pub price: u64,
    pub left: u32,
}

/// Whether the form is found to reach the bound at some values of the ranges. What was paid is taken from the purse.
#[tactic(auto, using(crate::proofs::SeekingLemmas::steps_of_search))]
#[cycle(search)]
pub fn search(
    alloc: Global,
    purse: &mut Purse,
    ranges: &[Ends],
    values: &[Whole],
    form: &Form,
    bound: &Whole,
) -> Result<bool, Memory>
    ensures found { IfOk result (λ found.
        found ≡ (search purse.old.price ranges.now values.now form.now bound.now purse.old.left).found) }
    ensures left { OnOk result
        (purse.new.left ≡ (search purse.old.price ranges.now values.now form.now bound.now purse.old.left).left) }
    ensures price { purse.new.price ≡ purse.old.price }
{
    if ranges.is_empty() {
        let value = form.value(alloc, values)?;
        return bound.is_at_most(alloc, &value);
    }
    match from_ends(alloc, ranges, values, form, bound)? {
        Some(seen) => Ok(seen),
        None => search_each(alloc, purse, ranges, values, form, bound),
    }
}

/// The same with values put in for the outermost range, one after the other, as long as they can be paid.
#[cycle(search)]
pub fn search_each(
    alloc: Global,
    purse: &mut Purse,
    ranges: &[Ends],
    values: &[Whole],
    form: &Form,
    bound: &Whole,
) -> Result<bool, Memory>
    ensures found { IfOk result (λ found.
        found ≡ (seek purse.old.price ranges.now values.now form.now bound.now purse.old.left).found) }
    ensures left { OnOk result
        (purse.new.left ≡ (seek purse.old.price ranges.now values.now form.now bound.now purse.old.left).left) }
    ensures price { purse.new.price ≡ purse.old.price }
{
    match ranges {
        [] => Ok(false),
        [outermost, inner @ ..] => {
            let mut run = Run::new(alloc, outermost, values)?;
            'upwards: while let Some(value) = run.next(alloc)? {
                if !pay(purse) {
                    return Ok(false);
                }
                let put_in = in_front(alloc, &value, values)?;
                if search(alloc, purse, inner, put_in.items(), form, bound)? {
                    return Ok(true);
                }
            }
            Ok(false)
        }
    }
}

/// Pays the price of one value, or takes what is left where that is less.
fn pay(purse: &mut Purse) -> bool
    ensures paid { result ≡ not (nat_lt purse.old.left purse.old.price) }
    ensures left { purse.new.left ≡ (if nat_lt purse.old.left purse.old.price then 0
        else purse.old.left - purse.old.price) }
    ensures price { purse.new.price ≡ purse.old.price }
{
    if (purse.left as u64) < purse.price {
        purse.left = 0;
        return false;
    }
    purse.left -= purse.price as u32;
    true
}
