//! The greatest value of a form in nested ranges, and what the ends of the ranges tell of whether it reaches a bound.
//! `ranges` are those that are open, the outermost first; `values` are those put in for the ranges around them, the
//! innermost first.

ghost use Rattle.std.specs.Prelude.{◌≡◌, ◌∷◌, pos, int_le, int_lt, IfOk};
ghost use Rattle.rob_index.specs.Forms.{all_run, fixed, from_ends, greatest, is_dead, lack_form, length_form, onto};

use crate::form::{Ends, Form, append_copies};
use crate::whole::Whole;
use rob_number::{List, Memory};
use std::alloc::Global;

/// The greatest value of a form, by back substitution. It is never passed; where a range may be empty it may not be
/// reached.
#[tactic(auto, using(crate::proofs::NestLemmas::greatest_none))]
pub fn greatest(
    alloc: Global,
    ranges: &[Ends],
    values: &[Whole],
    form: &Form,
) -> Result<Whole, Memory>
    ensures greatest { IfOk result (λ value. value
        ≡ greatest (onto ranges.now (fixed values.now)) form.now) }
{
    if ranges.is_empty() {
        return form.value(alloc, values);
    }
    let mut rest = form.copy(alloc)?;
    let mut left = ranges.len();
    'outwards: while left > 0 {
        left -= 1;
        rest.put_in(alloc, &ranges[left])?;
    }
    rest.value(alloc, values)
}

/// Whether a range has a value, whatever the values of those around it.
pub fn always_runs(
    alloc: Global,
    around: &[Ends],
    values: &[Whole],
    range: &Ends,
) -> Result<bool, Memory>
    ensures runs { IfOk result (λ runs.
        runs ≡ int_le (greatest (onto around.now (fixed values.now)) (lack_form range.now)) (pos 0)) }
{
    let zero = Whole::small(alloc, 0);
    let lack = range.lack(alloc)?;
    let most = greatest(alloc, around, values, &lack)?;
    most.is_at_most(alloc, &zero)
}

/// Whether a range has no value, whatever the values of those around it.
pub fn never_runs(
    alloc: Global,
    around: &[Ends],
    values: &[Whole],
    range: &Ends,
) -> Result<bool, Memory>
    ensures dead { IfOk result (λ dead.
        dead ≡ int_lt (greatest (onto around.now (fixed values.now)) (length_form range.now)) (pos 0)) }
{
    let length = range.length(alloc)?;
    let most = greatest(alloc, around, values, &length)?;
    Ok(most.is_negative())
}

/// Whether each range has a value, whatever the values around it.
pub fn all_run(alloc: Global, ranges: &[Ends], values: &[Whole]) -> Result<bool, Memory>
    ensures runs { IfOk result (λ runs. runs ≡ all_run (onto ranges.now (fixed values.now))) }
{
    match ranges {
        [] => Ok(true),
        [around @ .., innermost] => {
            if always_runs(alloc, around, values, innermost)? {
                all_run(alloc, around, values)
            } else {
                Ok(false)
            }
        }
    }
}

/// Whether some range has no value, whatever the values around it.
pub fn is_dead(alloc: Global, ranges: &[Ends], values: &[Whole]) -> Result<bool, Memory>
    ensures dead { IfOk result (λ dead. dead ≡ is_dead (onto ranges.now (fixed values.now))) }
{
    match ranges {
        [] => Ok(false),
        [around @ .., innermost] => {
            if never_runs(alloc, around, values, innermost)? {
                Ok(true)
            } else {
                is_dead(alloc, around, values)
            }
        }
    }
}

/// Whether the form reaches the bound somewhere, where that is seen from the ends alone.
pub fn from_ends(
    alloc: Global,
    ranges: &[Ends],
    values: &[Whole],
    form: &Form,
    bound: &Whole,
) -> Result<Option<bool>, Memory>
    ensures seen { IfOk result (λ seen. seen
        ≡ from_ends (onto ranges.now (fixed values.now)) form.now bound.now) }
{
    let most = greatest(alloc, ranges, values, form)?;
    if most.is_less(alloc, bound)? {
        return Ok(Some(false));
    }
    if is_dead(alloc, ranges, values)? {
        return Ok(Some(false));
    }
    if all_run(alloc, ranges, values)? {
        Ok(Some(true))
    } else {
        Ok(None)
    }
}

/// A value in front of others.
pub fn in_front(alloc: Global, value: &Whole, values: &[Whole]) -> Result<List<Whole>, Memory>
    ensures all { IfOk result (λ all. all ≡ value.now ∷ values.now) }
{
    let all = vec_in_front(alloc, value, values)?;
    Ok(List::from(all))
}

/// The same as a vector.
fn vec_in_front(alloc: Global, value: &Whole, values: &[Whole]) -> Result<Vec<Whole>, Memory>
    ensures all { IfOk result (λ all. all.items ≡ value.now ∷ values.now) }
{
    let mut all = Vec::with_capacity(alloc, values.len() + 1)?;
    all.push(value.copy(alloc)?)?;
    append_copies(&mut all, alloc, values)?;
    Ok(all)
}

/// Two values in front of others.
pub fn two_in_front(
    alloc: Global,
    first: &Whole,
    second: &Whole,
    values: &[Whole],
) -> Result<List<Whole>, Memory>
    ensures all { IfOk result (λ all. all ≡ first.now ∷ second.now ∷ values.now) }
{
    let mut all = Vec::with_capacity(alloc, values.len() + 2)?;
    all.push(first.copy(alloc)?)?;
    all.push(second.copy(alloc)?)?;
    append_copies(&mut all, alloc, values)?;
    Ok(List::from(all))
}
