//! The values of a range, upwards.

ghost use Rattle.std.specs.Prelude.{◌≡◌, ◌∷◌, ◌+ℤ◌, [], pos, false, true, None, IfOk, IfSome, MatchOption};
ghost use Rattle.rob_index.specs.Forms.{value_of, values_of};

use crate::form::Ends;
use crate::values::Values;
use crate::whole::Whole;
use rob_number::Memory;
use std::alloc::Global;
use std::marker::Model;

/// The values of a range that are left. Contracts see them, upwards.
pub struct Run {
    next: Whole,
    last: Whole,
}

impl Drop for Run {
    /// Lets go of it in one call. A derived drop would stand in each function that does.
    fn drop(self) {
        let Run {
            next: _next,
            last: _last,
        } = self;
    }
}

impl Model for Run {
    ghost use Rattle.std.specs.Prelude.{List, ℤ};
    ghost use Rattle.rob_index.specs.Settings.{count, upwards};

    ghost Value = { List ℤ };

    ghost view = { λ run. upwards run.next (count run.next run.last) };
}

impl Run {
    /// The values of a range, at some values of those around it.
    pub fn new(alloc: Global, range: &Ends, values: &[Whole]) -> Result<Run, Memory>
        ensures values { IfOk result (λ run. run ≡ values_of range.now values.now) }
    {
        let next = range.from().value(alloc, values)?;
        let last = range.upto().value(alloc, values)?;
        Ok(Run { next, last })
    }

    /// The same inside sums.
    pub fn inside(alloc: Global, range: &Ends, values: &Values) -> Result<Run, Memory>
        ensures values { IfOk result (λ run. run ≡ values_of range.now values.now) }
    {
        let next = values.value_of(alloc, range.from())?;
        let last = values.value_of(alloc, range.upto())?;
        Ok(Run { next, last })
    }

    /// The next value, if one is left; else none is behind it.
    pub fn next(&mut self, alloc: Global) -> Result<Option<Whole>, Memory>
        ensures next { IfOk result (λ next.
            MatchOption next (self.old ≡ []) (λ value. self.old ≡ value ∷ self.new)) }
        ensures empty { IfOk result (λ next. next ≡ None → self.new ≡ []) }
    {
        if self.next.is_at_most(alloc, &self.last)? {
            let value = self.next.copy(alloc)?;
            self.next = successor(alloc, &value)?;
            Ok(Some(value))
        } else {
            Ok(None)
        }
    }
}

impl<'a> Values<'a> {
    /// Puts the value of a range in front, where it is seen to have one alone; or says that none is put.
    #[inline(always)]
    pub fn enter(&mut self, alloc: Global, range: &Ends) -> Result<bool, Memory>
        ensures from { IfOk result (λ entered. entered ≡ true
            → self.new ≡ value_of range.now.from self.old ∷ self.old) }
        ensures upto { IfOk result (λ entered. entered ≡ true
            → value_of range.now.from self.old ≡ value_of range.now.upto self.old) }
        ensures same { IfOk result (λ entered. entered ≡ false → self.new ≡ self.old) }
    {
        match short_ends(range, self) {
            Some((from, upto)) if from == upto => {
                self.put(Whole::small(alloc, from))?;
                Ok(true)
            }
            Some(_) => Ok(false),
            None => self.enter_long(alloc, range),
        }
    }

    /// The same, whatever the ends are kept in.
    #[inline(never)]
    fn enter_long(&mut self, alloc: Global, range: &Ends) -> Result<bool, Memory>
        ensures from { IfOk result (λ entered. entered ≡ true
            → self.new ≡ value_of range.now.from self.old ∷ self.old) }
        ensures upto { IfOk result (λ entered. entered ≡ true
            → value_of range.now.from self.old ≡ value_of range.now.upto self.old) }
        ensures same { IfOk result (λ entered. entered ≡ false → self.new ≡ self.old) }
    {
        match only_long(alloc, range, self)? {
            Some(value) => {
                self.put(value)?;
                Ok(true)
            }
            None => Ok(false),
        }
    }
}

/// The ends of a range at some values, where all are kept in one digit.
#[inline(always)]
fn short_ends(range: &Ends, values: &Values) -> Option<(i64, i64)>
    ensures from { IfSome result (λ ends. ends.0 ≡ value_of range.now.from values.now) }
    ensures upto { IfSome result (λ ends. ends.1 ≡ value_of range.now.upto values.now) }
{
    let from = values.short_value(range.from())?;
    let upto = short_upto(range, from, values)?;
    Some((from, upto))
}

/// The last of them, where the first is this.
#[inline(always)]
fn short_upto(range: &Ends, from: i64, values: &Values) -> Option<i64>
    requires from { from ≡ value_of range.now.from values.now }
    ensures upto { IfSome result (λ upto. upto ≡ value_of range.now.upto values.now) }
{
    if range.is_single() {
        Some(from)
    } else {
        values.short_value(range.upto())
    }
}

/// The value that both ends are, whatever they are kept in.
#[inline(never)]
fn only_long(alloc: Global, range: &Ends, values: &Values) -> Result<Option<Whole>, Memory>
    ensures from { IfOk result (λ only. IfSome only (λ v. v ≡ value_of range.now.from values.now)) }
    ensures upto { IfOk result (λ only. IfSome only (λ v. v ≡ value_of range.now.upto values.now)) }
{
    let from = values.value_of(alloc, range.from())?;
    if range.is_single() {
        return Ok(Some(from));
    }
    let upto = values.value_of(alloc, range.upto())?;
    if from.is_seen_same(&upto) {
        Ok(Some(from))
    } else {
        Ok(None)
    }
}

/// The next value upwards: one more.
pub fn successor(alloc: Global, value: &Whole) -> Result<Whole, Memory>
    ensures next { IfOk result (λ next. next ≡ value.now +ℤ pos 1) }
{
    let one = Whole::small(alloc, 1);
    value.plus_times(alloc, &one, &one)
}
