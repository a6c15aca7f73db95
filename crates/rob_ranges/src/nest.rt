//! Nested ranges that are open, the outermost first. What their ends tell, whatever is asked, is worked out once for
//! the ranges in which another one is entered, where much is asked inside that; else where it is asked for.

ghost use Rattle.std.specs.Prelude.{◌≡◌, ◌++◌, ◌∷◌, ◌||◌, ◌&&◌, [], true, false, if◌then◌else◌, length, IfOk, OnOk};
ghost use Rattle.rob_index.specs.Forms.{from_ends, onto};
ghost use Rattle.rob_index.specs.Search.{search};
ghost use Rattle.rob_ranges.specs.Nests.{AreTold, IsTold, all_but_last, last_told};

use crate::form::{Ends, Form};
use crate::reach::{always_runs, greatest, never_runs};
use crate::search::{Purse, search_each};
use crate::whole::Whole;
use rob_number::Memory;
use std::alloc::Global;
use std::marker::Model;

/// What the ends of nested ranges tell.
#[derive(Clone, Copy)]
pub struct Told {
    /// Whether each range has a value, whatever the values around it.
    pub runs: bool,
    /// Whether some range has no value, whatever the values around it.
    pub dead: bool,
}

/// Nested ranges that are open. Contracts see their ends, the outermost first.
#[derive(Drop)]
pub struct Nest {
    ranges: Vec<Ends>,
    told: Vec<Told>,
}

impl Model for Nest {
    ghost use Rattle.std.specs.Prelude.{List, []};
    ghost use Rattle.rob_index.specs.Forms as spec;
    ghost use Rattle.rob_ranges.specs.Nests.{AreTold};

    ghost Value = { List spec.Ends };

    ghost view = { λ nest. nest.ranges.items };

    ghost invariant = { λ nest. AreTold [] nest.ranges.items nest.told.items };
}

impl Nest {
    /// No range is open.
    pub fn new(alloc: Global) -> Nest
        ensures none { result ≡ [] }
    {
        Nest {
            ranges: Vec::new(alloc),
            told: Vec::new(alloc),
        }
    }

    /// Opens a range inside the others. `asked`: whether much is asked inside it, so that what the ends of the others
    /// tell is kept.
    pub fn enter(&mut self, alloc: Global, asked: bool, ends: Ends) -> Result<(), Memory>
        ensures entered { OnOk result (self.new ≡ self.old ++ ends ∷ []) }
    {
        tell_where(alloc, asked, self.ranges.as_slice(), &mut self.told)?;
        self.ranges.push(ends)?;
        Ok(())
    }

    /// Closes the innermost range.
    pub fn leave(&mut self)
        ensures left { self.new ≡ all_but_last self.old }
    {
        self.ranges.pop();
        if self.told.len() > self.ranges.len() {
            self.told.pop();
        }
    }

    /// Whether the form reaches the bound somewhere, where that is seen from the ends alone.
    fn from_ends(&self, alloc: Global, form: &Form, bound: &Whole) -> Result<Option<bool>, Memory>
        ensures seen { IfOk result (λ seen. seen
            ≡ from_ends (onto self.now []) form.now bound.now) }
    {
        let most = greatest(alloc, self.ranges.as_slice(), &[], form)?;
        if most.is_less(alloc, bound)? {
            return Ok(Some(false));
        }
        let told = told_of(alloc, self.ranges.as_slice(), self.told.as_slice())?;
        Ok(seen_of(told))
    }

    /// Whether the form is found to reach the bound at some values of the ranges, for what may be spent.
    #[tactic(auto, using(crate::proofs::SeekingLemmas::steps_of_search))]
    pub fn search(
        &self,
        alloc: Global,
        purse: &mut Purse,
        form: &Form,
        bound: &Whole,
    ) -> Result<bool, Memory>
        ensures found { IfOk result (λ found.
            found ≡ (search purse.old.price self.now [] form.now bound.now purse.old.left).found) }
        ensures left { OnOk result
            (purse.new.left ≡ (search purse.old.price self.now [] form.now bound.now purse.old.left).left) }
        ensures price { purse.new.price ≡ purse.old.price }
    {
        if self.ranges.is_empty() {
            let value = form.value(alloc, &[])?;
            return bound.is_at_most(alloc, &value);
        }
        match self.from_ends(alloc, form, bound)? {
            Some(seen) => Ok(seen),
            None => search_each(alloc, purse, self.ranges.as_slice(), &[], form, bound),
        }
    }
}

/// What the ends of all ranges tell, where that of the inner ones may not be kept.
fn told_of(alloc: Global, ranges: &[Ends], told: &[Told]) -> Result<Told, Memory>
    requires told { AreTold [] ranges.now told.now }
    ensures told { IfOk result (λ told. IsTold (onto ranges.now []) told) }
{
    if told.len() == ranges.len() {
        return Ok(last_told(told));
    }
    match ranges {
        [] => Ok(last_told(told)),
        [around @ .., innermost] => {
            let outer = told_of(alloc, around, told)?;
            told_inside(alloc, around, outer, innermost)
        }
    }
}

/// Keeps what the ends of all ranges tell, where much is asked.
fn tell_where(
    alloc: Global,
    asked: bool,
    ranges: &[Ends],
    told: &mut Vec<Told>,
) -> Result<(), Memory>
    requires told { AreTold [] ranges.now told.old.items }
    ensures told { AreTold [] ranges.now told.new.items }
{
    if asked {
        tell_all(alloc, ranges, told)
    } else {
        Ok(())
    }
}

/// Keeps what the ends of all ranges tell.
fn tell_all(alloc: Global, ranges: &[Ends], told: &mut Vec<Told>) -> Result<(), Memory>
    requires told { AreTold [] ranges.now told.old.items }
    ensures told { AreTold [] ranges.now told.new.items }
    ensures all { OnOk result (length told.new.items ≡ length ranges.now) }
{
    if told.len() == ranges.len() {
        return Ok(());
    }
    match ranges {
        [] => Ok(()),
        [around @ .., innermost] => {
            tell_all(alloc, around, told)?;
            let outer = last_told(told.as_slice());
            let inner = told_inside(alloc, around, outer, innermost)?;
            told.push(inner)?;
            Ok(())
        }
    }
}

/// The last that is told; where nothing is, what is told of no range.
fn last_told(told: &[Told]) -> Told
    ensures last { result ≡ last_told told.now }
{
    match told {
        [] => Told {
            runs: true,
            dead: false,
        },
        [.., last] => *last,
    }
}

/// What the ends tell with one range more.
fn told_inside(alloc: Global, around: &[Ends], told: Told, innermost: &Ends) -> Result<Told, Memory>
    requires told { IsTold (onto around.now []) told }
    ensures told { IfOk result (λ told. IsTold (onto (around.now ++ innermost.now ∷ []) []) told) }
{
    let runs = always_runs(alloc, around, &[], innermost)?;
    let dead = never_runs(alloc, around, &[], innermost)?;
    Ok(told_with(told, runs, dead))
}

/// What the ends tell with those of one range more.
fn told_with(around: Told, runs: bool, dead: bool) -> Told
    ensures told { result ≡ record { runs = runs && around.runs; dead = dead || around.dead } }
{
    Told {
        runs: runs && around.runs,
        dead: dead || around.dead,
    }
}

/// What is seen where the greatest value isn't below the bound, and the ends tell this.
fn seen_of(told: Told) -> Option<bool>
    ensures seen { result ≡ (if told.dead then Some false else
        (if told.runs then Some true else None)) }
{
    if told.dead {
        Some(false)
    } else if told.runs {
        Some(true)
    } else {
        None
    }
}
