//! What is looked for at a place.

ghost use Rattle.std.specs.Prelude.{◌≡◌, ◌^◌, ◌-◌, [], min, IfOk, OnOk};
ghost use Rattle.rob_index.specs.Forms.{minus};
ghost use Rattle.rob_index.specs.Fast.{nothing};
ghost use Rattle.rob_index.specs.Rules.{has_great, is_great_atom};
ghost use Rattle.rob_index.specs.Search.{search};
ghost use Rattle.rob_syntax.specs.Seen.{seen_atom, seen_index, seen_range};
ghost use Rattle.rob_places.specs.Tests.{is_set, is_unknown_in, out_in, sought_out_in};
ghost use Rattle.rob_places.specs.Tests as spec;

use crate::around::Around;
use rob_number::Memory;
use rob_ranges::{Form, Purse, Whole};
use rob_syntax::syntax::{Atom, Index, Range};
use std::alloc::Global;

/// The greatest value of an index.
const GREATEST_INDEX: u64 = 999;

/// The least number that is over it.
const TOO_GREAT: i64 = 1000;

/// How far the last value of a range is from its first at least where the range has more than 100 values.
const TOO_LONG: i64 = 100;

/// What is looked for.
#[derive(Clone, Copy)]
pub enum Test {
    /// A name in an index that no range around has; or a range whose name is one around, or a declared one.
    Unknown,
    /// Digits over the greatest index.
    GreatDigits,
    /// A range that is found to be too long, for what may be spent.
    SoughtLong,
    /// Digits over the greatest index, or an index that is found to be out of bounds, for what may be spent.
    Out,
}

/// What is looked for, and whether each word is declared, by its number.
#[derive(Clone, Copy)]
pub struct Task<'a> {
    pub test: Test,
    pub declared: &'a [bool],
}

/// Whether it is at an index of a name. What was paid is taken from what is left.
pub fn at_index(
    alloc: Global,
    test: Test,
    around: &Around,
    index: &Index,
    left: &mut u32,
) -> Result<bool, Memory>
    ensures found { IfOk result (λ found.
        found ≡ (spec.at_index test around.now (seen_index index.now) left.old).found) }
    ensures left { OnOk result (left.new
        ≡ (spec.at_index test around.now (seen_index index.now) left.old).left) }
{
    match test {
        Test::Unknown => Ok(around.has_loose(index)),
        Test::GreatDigits => Ok(has_great(index)),
        Test::SoughtLong => Ok(false),
        Test::Out => is_out(alloc, around, index, left),
    }
}

/// Whether it is at a range.
pub fn at_range(
    alloc: Global,
    task: &Task,
    around: &Around,
    range: &Range,
    left: &mut u32,
) -> Result<bool, Memory>
    ensures found { IfOk result (λ found. found
        ≡ (spec.at_range (is_set task.now.declared.now) task.now.test
        around.now (seen_range range.now) left.old).found) }
    ensures left { OnOk result (left.new
        ≡ (spec.at_range (is_set task.now.declared.now) task.now.test
        around.now (seen_range range.now) left.old).left) }
{
    match task.test {
        Test::Unknown => Ok(is_unknown(task.declared, around, range)),
        Test::GreatDigits | Test::Out => Ok(has_great(&range.from) || has_great(&range.upto)),
        Test::SoughtLong => is_sought_long(alloc, around, range, left),
    }
}

/// Whether a name in the range's ends is one that no range around has, or its own is such a one, or declared.
fn is_unknown(declared: &[bool], around: &Around, range: &Range) -> bool
    ensures unknown { result ≡ is_unknown_in (is_set declared.now) around.now
        (seen_range range.now) }
{
    if around.has_loose(&range.from) || around.has_loose(&range.upto) {
        return true;
    }
    around.binds(range.name) || is_set(declared, range.name)
}

/// Whether a word is declared.
fn is_set(declared: &[bool], word: usize) -> bool
    ensures set { result ≡ spec.is_set declared.now word }
{
    match declared.get(word) {
        Some(set) => *set,
        None => false,
    }
}

/// Whether digits in an index are over the greatest index.
fn has_great(index: &Index) -> bool
    ensures great { result ≡ has_great (seen_index index.now) }
{
    if is_great_atom(index.first) {
        return true;
    }
    for step in index.more.items() {
        if is_great_atom(step.atom) {
            return true;
        }
    }
    false
}

/// Whether an atom is digits over the greatest index.
fn is_great_atom(atom: Atom) -> bool
    ensures great { result ≡ is_great_atom (seen_atom atom) }
{
    match atom {
        Atom::Digits(digits) => digits > GREATEST_INDEX,
        Atom::Bound(_) => false,
    }
}

/// Whether a range is found to have more than 100 values.
fn is_sought_long(
    alloc: Global,
    around: &Around,
    range: &Range,
    left: &mut u32,
) -> Result<bool, Memory>
    ensures found { IfOk result (λ found.
        found ≡ (spec.sought_long_in around.now (seen_range range.now) left.old).found) }
    ensures left { OnOk result (left.new
        ≡ (spec.sought_long_in around.now (seen_range range.now) left.old).left) }
{
    let length = around.length_of(alloc, range)?;
    sought(alloc, around, &length, TOO_LONG, left)
}

/// Whether digits in an index are over 999, or it is found to be below 0 or over 999.
fn is_out(alloc: Global, around: &Around, index: &Index, left: &mut u32) -> Result<bool, Memory>
    ensures found { IfOk result (λ found. found
        ≡ (out_in around.now (seen_index index.now) left.old).found) }
    ensures left { OnOk result (left.new
        ≡ (out_in around.now (seen_index index.now) left.old).left) }
{
    if has_great(index) {
        Ok(true)
    } else {
        is_sought_out(alloc, around, index, left)
    }
}

/// Whether an index is found to be below 0 or over 999.
fn is_sought_out(
    alloc: Global,
    around: &Around,
    index: &Index,
    left: &mut u32,
) -> Result<bool, Memory>
    ensures found { IfOk result (λ found.
        found ≡ (sought_out_in around.now (seen_index index.now) left.old).found) }
    ensures left { OnOk result (left.new
        ≡ (sought_out_in around.now (seen_index index.now) left.old).left) }
{
    let form = around.form_of(alloc, index)?;
    let opposite = opposite(alloc, &form)?;
    if sought(alloc, around, &opposite, 1, left)? {
        return Ok(true);
    }
    sought(alloc, around, &form, TOO_GREAT, left)
}

/// The opposite of a form.
fn opposite(alloc: Global, form: &Form) -> Result<Form, Memory>
    ensures opposite { IfOk result (λ opposite. opposite ≡ minus nothing form.now) }
{
    let nothing = Form::nothing(alloc);
    nothing.minus(alloc, form)
}

/// Whether a form is found to reach a bound somewhere.
#[tactic(auto, using(crate::proofs::PriceLemmas::same_search))]
fn sought(
    alloc: Global,
    around: &Around,
    form: &Form,
    bound: i64,
    left: &mut u32,
) -> Result<bool, Memory>
    ensures found { IfOk result (λ found.
        found ≡ (search (spec.price around.now) around.now.nest [] form.now bound left.old).found) }
    ensures left { OnOk result
        (left.new ≡ (search (spec.price around.now) around.now.nest [] form.now bound left.old).left) }
{
    let mut purse = Purse {
        price: price(around),
        left: *left,
    };
    let bound = Whole::small(alloc, bound);
    let found = around.nest().search(alloc, &mut purse, form, &bound)?;
    *left = purse.left;
    Ok(found)
}

/// What putting in a value costs, the cube of the number of ranges around; where that is more than can be left, any
/// such number.
#[tactic(auto, using(crate::proofs::PriceLemmas::cube_cut))]
fn price(around: &Around) -> u64
    ensures price { min result (2 ^ 32) ≡ min (spec.price around.now) (2 ^ 32) }
{
    let depth = around.depth() as u64;
    depth.saturating_mul(depth.saturating_mul(depth))
}
