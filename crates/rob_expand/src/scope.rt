//! The names of the ranges around a place in an expression, and the forms that stand for their values.

ghost use Rattle.std.specs.Prelude.{◌≡◌, [], true, IfOk, OnOk};
ghost use Rattle.rob_index.specs.Fast as fast;
ghost use Rattle.rob_index.specs.Forms.{length_form, plus_times};
ghost use Rattle.rob_syntax.specs.Seen.{seen_index, seen_range};
ghost use Rattle.rob_expand.specs.Scopes.{AddNothing, AreEqual, inside, IsIndex, IsNothing, IsPutIn, outside, with_first};

use rob_index_forms::{ends_of, index_form};
use rob_number::Memory;
use rob_number::list::remove_first;
use rob_ranges::{Form, Whole};
use rob_syntax::syntax::{Index, Range};
use std::alloc::Global;
use std::marker::Model;

/// What stands for the value of a name that a sum binds: the start of its range, and where it moves, how far it is from
/// there, which is a value of the setting.
#[derive(Drop)]
pub struct Binding {
    moves: bool,
    start: Form,
}

/// Names, the innermost first, and what stands for the first of them. The others have values of their own. Contracts
/// see both lists.
#[derive(Drop)]
pub struct Scope {
    names: Vec<usize>,
    bound: Vec<Binding>,
}

impl Model for Scope {
    ghost use Rattle.rob_expand.specs.Scopes as spec;

    ghost Value = { spec.Scope };

    ghost view = { λ scope. record { names = scope.names.items; bound = scope.bound.items } };
}

impl Scope {
    /// These names, each with a value of its own.
    pub fn within(alloc: Global, names: &[usize]) -> Result<Scope, Memory>
        ensures names { IfOk result (λ scope. scope.names ≡ names.now) }
        ensures bound { IfOk result (λ scope. scope.bound ≡ []) }
    {
        let names = Vec::from_slice(alloc, names)?;
        let bound = Vec::new(alloc);
        Ok(Scope { names, bound })
    }

    /// One name more, inside the others, whose range starts there.
    pub fn enter(&mut self, name: usize, moves: bool, start: Form) -> Result<(), Memory>
        ensures entered { OnOk result (self.new
            ≡ inside self.old name (record { moves = moves; start = start })) }
    {
        self.names.insert(0, name)?;
        self.bound.insert(0, Binding { moves, start })?;
        Ok(())
    }

    /// One name fewer.
    pub fn leave(&mut self)
        ensures left { self.new ≡ outside self.old }
    {
        remove_first(&mut self.names);
        remove_first(&mut self.bound);
    }

    /// The form of an index.
    pub fn index(&self, alloc: Global, index: &Index) -> Result<Form, Memory>
        ensures form { IfOk result
            (λ form. IsIndex self.now.bound self.now.names form (seen_index index.now)) }
    {
        let mut form = index_form(alloc, self.names.as_slice(), index)?;
        put_starts(&mut form, alloc, self.bound.as_slice())?;
        Ok(form)
    }

    /// How far the last value of a range is from its first.
    pub fn length(&self, alloc: Global, range: &Range) -> Result<Form, Memory>
        ensures length { IfOk result (λ form. IsPutIn self.now.bound form
            (length_form (fast.ends_of self.now.names (seen_range range.now)))) }
    {
        let ends = ends_of(alloc, self.names.as_slice(), range)?;
        let mut form = ends.length(alloc)?;
        put_starts(&mut form, alloc, self.bound.as_slice())?;
        Ok(form)
    }
}

/// Puts in what stands for the innermost values.
fn put_starts(form: &mut Form, alloc: Global, bound: &[Binding]) -> Result<(), Memory>
    ensures put { OnOk result (IsPutIn bound.now form.new form.old) }
{
    match bound {
        [] => Ok(()),
        [first, others @ ..] => {
            if form.factors().is_empty() {
                return Ok(());
            }
            let factor = form.take_first(alloc)?;
            put_starts(form, alloc, others)?;
            put_start(form, alloc, first, factor)
        }
    }
}

/// Adds so many times what stands for a value to a form over the values further out.
fn put_start(form: &mut Form, alloc: Global, binding: &Binding, factor: Whole) -> Result<(), Memory>
    ensures put { OnOk result (AreEqual form.new (with_first binding.now factor form.old)) }
{
    add_times(form, alloc, &factor, &binding.start)?;
    if binding.moves {
        form.put_first(factor)?;
    }
    Ok(())
}

/// Adds `factor` times another form. 0 times a form is nothing; and a form that has no factors is added to a copy of
/// the other, which takes fewer steps than products with 1.
fn add_times(form: &mut Form, alloc: Global, factor: &Whole, other: &Form) -> Result<(), Memory>
    ensures sum { OnOk result (AreEqual form.new (plus_times form.old factor.now other.now)) }
{
    if is_seen(factor, 0) {
        return Ok(());
    }
    if is_seen(factor, 1) && form.factors().is_empty() {
        *form = other.plus_times(alloc, factor, form)?;
        return Ok(());
    }
    form.add(alloc, factor, other)
}

/// Whether the form is seen to be 0 everywhere.
pub fn is_nothing(form: &Form) -> bool
    ensures nothing { result ≡ true → IsNothing form.now }
{
    if !is_seen(form.constant(), 0) {
        return false;
    }
    add_nothing(form.factors())
}

/// Whether all factors are seen to be 0.
fn add_nothing(factors: &[Whole]) -> bool
    ensures nothing { result ≡ true → AddNothing factors.now }
{
    match factors {
        [] => true,
        [factor, others @ ..] => {
            if !is_seen(factor, 0) {
                return false;
            }
            add_nothing(others)
        }
    }
}

/// Whether a number is seen to be this one.
fn is_seen(number: &Whole, one: i64) -> bool
    ensures seen { result ≡ true → number.now ≡ one }
{
    match number.single() {
        Some(number) => number == one,
        None => false,
    }
}
