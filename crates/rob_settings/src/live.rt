//! Where the ranges inside a range have values.

ghost use Rattle.std.specs.Prelude.{ℤ, pos, negsuc, ◌≡◌, ◌+ℤ◌, ◌-ℤ◌, ◌*ℤ◌, ◌≤ℤ◌, ◌<ℤ◌, int_lt, IfOk, IfSome, MatchOption};
ghost use Rattle.rob_settings.specs.Live.{lack_at, IsDead};

use crate::divide::{small_steps, steps_to};
use rob_number::Memory;
use rob_ranges::run::successor;
use rob_ranges::small::{small_growth, small_inside, value_inside};
use rob_ranges::{Ends, Whole};
use std::alloc::Global;

/// The first value from `from` on at which the outermost of the ranges inside has one; or nothing, where it has none
/// from there on. It is found by division: how far the range's start is behind its end changes by the same amount from
/// value to value.
#[inline(always)]
pub fn first_live(
    alloc: Global,
    from: &Whole,
    inner: &[Ends],
    values: &[Whole],
) -> Result<Option<Whole>, Memory>
    ensures live { IfOk result (λ live. MatchOption live
        ((w : ℤ) → from.now ≤ℤ w → IsDead inner.now values.now w)
        (λ v. (from.now ≤ℤ v) × ((w : ℤ) → from.now ≤ℤ w → w <ℤ v → IsDead inner.now values.now w))) }
    ensures alive { IfOk result (λ live. IfSome live (λ v. IsDead inner.now values.now v → ⊥)) }
{
    match inner {
        [] => Ok(Some(from.copy(alloc)?)),
        [range, ..] => match small_first(from, range, values) {
            Some(Some(live)) => Ok(Some(Whole::small(alloc, live))),
            Some(None) => Ok(None),
            None => first_of(alloc, from, range, values),
        },
    }
}

/// The same for the outermost of the ranges inside, where all numbers are kept in one digit.
#[inline(always)]
fn small_first(from: &Whole, range: &Ends, values: &[Whole]) -> Option<Option<i64>>
    ensures live { IfSome result (λ live. MatchOption live
        ((w : ℤ) → from.now ≤ℤ w → pos 0 <ℤ lack_at range.now values.now w)
        (λ v. (from.now ≤ℤ v)
        × ((w : ℤ) → from.now ≤ℤ w → w <ℤ v → pos 0 <ℤ lack_at range.now values.now w))) }
    ensures alive { IfSome result (λ live. IfSome live
        (λ v. pos 0 <ℤ lack_at range.now values.now v → ⊥)) }
{
    let begin = from.single()?;
    let here = small_lack(range, from, values)?;
    if here <= 0 {
        return Some(Some(begin));
    }
    let step = small_growth(range)?;
    if step <= 0 {
        return Some(None);
    }
    let live = small_behind(begin, here, step)?;
    Some(Some(live))
}

/// How far the start of a range is behind its end, where the range around it has this value.
#[inline(always)]
fn small_lack(range: &Ends, value: &Whole, values: &[Whole]) -> Option<i64>
    ensures lack { IfSome result (λ lack. lack ≡ lack_at range.now values.now value.now) }
{
    let from = small_inside(range.from(), value, values)?;
    let upto = small_inside(range.upto(), value, values)?;
    from.checked_sub(upto)
}

/// The first value by which `step` is taken often enough from `from` on to be at least `lack`.
#[inline(always)]
fn small_behind(from: i64, lack: i64, step: i64) -> Option<i64>
    ensures enough { IfSome result (λ live. lack ≤ℤ ((live -ℤ from) *ℤ step)) }
    ensures least { IfSome result (λ live. (((live -ℤ from) -ℤ pos 1) *ℤ step) <ℤ lack) }
{
    let steps = small_steps(lack, step)?;
    from.checked_add(steps)
}

/// The first value from `from` on at which this range has one, or nothing, by numbers of any size.
fn first_of(
    alloc: Global,
    from: &Whole,
    range: &Ends,
    values: &[Whole],
) -> Result<Option<Whole>, Memory>
    ensures live { IfOk result (λ live. MatchOption live
        ((w : ℤ) → from.now ≤ℤ w → pos 0 <ℤ lack_at range.now values.now w)
        (λ v. (from.now ≤ℤ v)
        × ((w : ℤ) → from.now ≤ℤ w → w <ℤ v → pos 0 <ℤ lack_at range.now values.now w))) }
    ensures alive { IfOk result (λ live. IfSome live
        (λ v. pos 0 <ℤ lack_at range.now values.now v → ⊥)) }
{
    let here = lack(alloc, range, from, values)?;
    if is_positive(alloc, &here)? {
        first_behind(alloc, from, range, values, &here)
    } else {
        Ok(Some(from.copy(alloc)?))
    }
}

/// The same, where `from` is none, and the start of the range is so far behind its end there.
fn first_behind(
    alloc: Global,
    from: &Whole,
    range: &Ends,
    values: &[Whole],
    here: &Whole,
) -> Result<Option<Whole>, Memory>
    requires here { here.now ≡ lack_at range.now values.now from.now }
    requires over { pos 0 <ℤ here.now }
    ensures live { IfOk result (λ live. MatchOption live
        ((w : ℤ) → from.now ≤ℤ w → pos 0 <ℤ lack_at range.now values.now w)
        (λ v. (from.now ≤ℤ v)
        × ((w : ℤ) → from.now ≤ℤ w → w <ℤ v → pos 0 <ℤ lack_at range.now values.now w))) }
    ensures alive { IfOk result (λ live. IfSome live
        (λ v. pos 0 <ℤ lack_at range.now values.now v → ⊥)) }
{
    let step = fall(alloc, range, from, values, here)?;
    if is_positive(alloc, &step)? {
        let steps = steps_to(alloc, here, &step)?;
        let live = sum(alloc, from, &steps)?;
        Ok(Some(live))
    } else {
        Ok(None)
    }
}

/// Whether a number is over 0.
fn is_positive(alloc: Global, number: &Whole) -> Result<bool, Memory>
    ensures positive { IfOk result (λ positive. positive ≡ int_lt (pos 0) number.now) }
{
    let zero = Whole::small(alloc, 0);
    zero.is_less(alloc, number)
}

/// The sum of two numbers.
fn sum(alloc: Global, first: &Whole, second: &Whole) -> Result<Whole, Memory>
    ensures sum { IfOk result (λ sum. sum ≡ first.now +ℤ (pos 1 *ℤ second.now)) }
{
    let one = Whole::small(alloc, 1);
    first.plus_times(alloc, &one, second)
}

/// By how much a range's start comes nearer to its end with the next value of the range around it. `here` is how far
/// it is behind it at this one.
fn fall(
    alloc: Global,
    range: &Ends,
    value: &Whole,
    values: &[Whole],
    here: &Whole,
) -> Result<Whole, Memory>
    requires here { here.now ≡ lack_at range.now values.now value.now }
    ensures fall { IfOk result (λ fall. fall ≡ lack_at range.now values.now value.now
        +ℤ (negsuc 0 *ℤ lack_at range.now values.now (value.now +ℤ pos 1))) }
{
    let after = successor(alloc, value)?;
    let behind = lack(alloc, range, &after, values)?;
    let minus_one = Whole::small(alloc, -1);
    here.plus_times(alloc, &minus_one, &behind)
}

/// How far the start of a range is behind its end, where the range around it has this value.
fn lack(alloc: Global, range: &Ends, value: &Whole, values: &[Whole]) -> Result<Whole, Memory>
    ensures lack { IfOk result (λ lack. lack ≡ lack_at range.now values.now value.now) }
{
    let from = value_inside(alloc, range.from(), value, values)?;
    let upto = value_inside(alloc, range.upto(), value, values)?;
    let minus_one = Whole::small(alloc, -1);
    from.plus_times(alloc, &minus_one, &upto)
}
