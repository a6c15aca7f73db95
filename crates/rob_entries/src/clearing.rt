//! Rows that another row clears of one entry, up to positive factors: the row operation of a pivot where rows need not
//! be in lowest terms. (Edmonds 1967.)
//!     row  becomes  p * row - q * top,  with p * row[place] = q * top[place] and p above 0
//! A number that bounds the entries of each row shows where the entries' type suffices. Else the row is put in lowest
//! terms.

ghost use Rattle.std.specs.Prelude.{◌≡◌, ℕ, ◌+◌, ◌<◌, ◌≤◌, ◌*ℤ◌, ◌-ℤ◌, ◌<ℤ◌, pos, nat_abs, map, length, take, Any, IfOk, OnOk, OnErr};
ghost use Rattle.rob_linear.specs.Vectors.{at};
ghost use Rattle.rob_linear.specs.Multiples.{IsClearedBy};
ghost use Rattle.rob_rows.specs.PrimitiveParts.{combination, IsPrimitivePart, IsWithin, HasWidePart};
ghost use Rattle.rob_entries.specs.Maps.{AreMarked};
ghost use Rattle.rob_entries.specs.Updates.{AreListed, CanApply, CanClearRow, IsBounded, IsNarrowBy, IsWideCleared};

use crate::entry::Entry;
use crate::updates::{mark, scale, subtract};
use rob_number::Wide;
use std::alloc::{AllocError, Global};
use std::marker::Model;

/// A cell of rows that lie one behind another: where its row begins, and its place there.
#[derive(Clone, Copy)]
pub struct Cell {
    pub start: usize,
    pub place: usize,
}

/// The factors of a row and of the one that clears it of a cell.
#[derive(Clone, Copy)]
struct Factors<E> {
    p: E,
    q: E,
}

/// The row that clears others: its entries in lowest terms, the places where they are not 0, and room for one row more.
/// Contracts see the entries and the number that bounds them.
pub struct PivotRow<E: Entry> {
    entries: Vec<E>,
    bound: u128,
    places: Vec<usize>,
    listed: usize,
    room: Vec<E>,
}

impl<E: Entry> Drop for PivotRow<E> {
    /// Lets go of it in one call. A derived drop would stand in each function that does.
    fn drop(self) {
        let PivotRow {
            entries: _entries,
            bound: _bound,
            places: _places,
            listed: _listed,
            room: _room,
        } = self;
    }
}

impl<E: Entry> Model for PivotRow<E> {
    ghost use Rattle.std.specs.Prelude.{map, length};
    ghost use Rattle.rob_entries.specs.Updates.{Clearing, IsReady};

    ghost Value = { Clearing };

    ghost view = { λ row. record { entries = map E.value row.entries.items; bound = row.bound } };

    ghost invariant = { λ row. IsReady (map E.value row.entries.items) row.bound row.places.items row.listed
        (length row.room.items) };
}

impl<E: Entry> PivotRow<E> {
    /// Room for rows of this width.
    pub fn new(alloc: Global, width: usize) -> Result<PivotRow<E>, AllocError>
        ensures width { IfOk result (λ row. length row.entries ≡ width) }
    {
        Ok(PivotRow {
            entries: vec![in alloc; E::of(0); width]?,
            bound: 0,
            places: vec![in alloc; 0usize; width]?,
            listed: 0,
            room: vec![in alloc; E::of(0); width]?,
        })
    }

    /// The number of entries.
    pub fn width(&self) -> usize
        ensures width { result ≡ length self.now.entries }
    {
        self.entries.len()
    }

    /// Takes this row in lowest terms, whose entries the number bounds, as the one that clears others.
    pub fn load(&mut self, row: &[E], bound: u128)
        requires length { length row.now ≡ length self.old.entries }
        requires within { IsWithin bound (map E.value row.now) }
        requires bound { bound ≤ E.top }
        ensures part { IsPrimitivePart self.new.entries (map E.value row.now) }
        ensures bound { self.new.bound ≤ bound }
    {
        self.entries.as_mut_slice().copy_from_slice(row);
        E::reduce(self.entries.as_mut_slice(), bound);
        self.listed = list_places(self.entries.as_slice(), self.places.as_mut_slice());
        self.bound = largest_listed(
            self.entries.as_slice(),
            &self.places.as_slice()[..self.listed],
        );
    }

    /// The row, which begins at `start`, p times, less q times this one, with its marks.
    fn apply(&self, row: &mut [E], marks: &mut [bool], start: usize, factors: Factors<E>)
        requires length { length row.old ≡ length self.now.entries }
        requires marks_in { start + length row.old ≤ length marks.old }
        requires positive { pos 0 <ℤ E.value factors.p }
        requires narrow { IsNarrowBy E.top (length row.old) (E.value factors.p) (E.value factors.q)
            (at (map E.value row.old))
            (at self.now.entries) }
        ensures entries { (k : ℕ) → k < length row.old → at (map E.value row.new) k
            ≡ (E.value factors.p *ℤ at (map E.value row.old) k)
            -ℤ (E.value factors.q *ℤ at self.now.entries k) }
        ensures marked { AreMarked start (length row.old) (at (map E.value row.new))
            (at self.now.entries) marks.old
            marks.new }
    {
        let Factors { p, q } = factors;
        scale(row, p);
        subtract(
            row,
            marks,
            start,
            q,
            self.entries.as_slice(),
            &self.places.as_slice()[..self.listed],
        );
    }

    /// The same in lowest terms, whatever sizes the products have.
    fn apply_lowest(
        &mut self,
        row: &mut [E],
        marks: &mut [bool],
        start: usize,
        factors: Factors<E>,
        limit: u128,
    ) -> Result<u128, Wide>
        requires ready { CanApply E.top limit (E.value factors.p) (E.value factors.q)
            (map E.value row.old) self.old.entries
            (length row.old) start (length marks.old) }
        ensures part { OnOk result (IsPrimitivePart (map E.value row.new)
            (combination (E.value factors.p) (map E.value row.old)
            (E.value factors.q) self.old.entries)) }
        ensures bounded { IfOk result (λ sum. IsBounded limit (map E.value row.new) sum) }
        ensures wide { OnErr result
            (HasWidePart limit
            (combination (E.value factors.p) (map E.value row.old)
            (E.value factors.q) self.old.entries)) }
        ensures unchanged { OnErr result (row.new ≡ row.old) }
        ensures marked { IfOk result (λ _. AreMarked start (length row.old)
            (at (map E.value row.new))
            (at self.old.entries) marks.old marks.new) }
        ensures kept { OnErr result (marks.new ≡ marks.old) }
        ensures same { self.new ≡ self.old }
    {
        let Factors { p, q } = factors;
        E::combine(
            self.room.as_mut_slice(),
            p,
            row,
            q,
            self.entries.as_slice(),
            limit,
        )?;
        row.copy_from_slice(self.room.as_slice());
        mark(
            marks,
            start,
            row,
            self.entries.as_slice(),
            &self.places.as_slice()[..self.listed],
        );
        Ok(E::largest(row))
    }

    /// Clears the row of its entry in the cell, marks what it writes, and tells a number that bounds the new entries.
    /// The row may be a positive multiple of the one in lowest terms. `Wide` where that one has an entry over the
    /// limit; then the row stays.
    pub fn clear(
        &mut self,
        row: &mut [E],
        marks: &mut [bool],
        cell: Cell,
        bound: u128,
        limit: u128,
    ) -> Result<u128, Wide>
        requires ready { CanClearRow E.top limit (map E.value row.old) self.old bound cell.place
            (length row.old) cell.start
            (length marks.old) }
        ensures cleared { IfOk result (λ _. IsClearedBy (length row.old) cell.place
            (at (map E.value row.old))
            (at self.old.entries) (at (map E.value row.new))) }
        ensures bounded { IfOk result (λ sum. IsBounded limit (map E.value row.new) sum) }
        ensures wide { OnErr result
            (IsWideCleared limit (length row.old) cell.place
            (at (map E.value row.old)) (at self.old.entries)) }
        ensures unchanged { OnErr result (row.new ≡ row.old) }
        ensures marked { IfOk result (λ _. AreMarked cell.start (length row.old)
            (at (map E.value row.new))
            (at self.old.entries) marks.old marks.new) }
        ensures kept { OnErr result (marks.new ≡ marks.old) }
        ensures same { self.new ≡ self.old }
    {
        let Cell { start, place } = cell;
        let (p, q) = E::lowest(self.entries[place], row[place]);
        match E::bound_of(p, bound, q, self.bound, limit) {
            Some(sum) => {
                self.apply(row, marks, start, Factors { p, q });
                Ok(sum)
            }
            None => self.apply_lowest(row, marks, start, Factors { p, q }, limit),
        }
    }
}

/// Lists the places where the row is not 0 at the front of `places`, and tells how many there are. Each place is
/// written behind the list, whether or not it stays there, since a branch on it would often be mispredicted.
fn list_places<E: Entry>(row: &[E], places: &mut [usize]) -> usize
    requires room { length places.old ≡ length row.now }
    ensures few { result ≤ length places.new }
    ensures listed { AreListed (length row.now) (at (map E.value row.now))
        (take result places.new) }
{
    let mut listed = 0;
    for k in 0..row.len() {
        let some = !row[k].is_zero();
        places[listed] = k;
        if some {
            listed += 1;
        }
    }
    listed
}

/// The greatest size of a row's entries, 0 where there is none. Those that are not 0 are listed, and no others are
/// looked at.
fn largest_listed<E: Entry>(row: &[E], places: &[usize]) -> u128
    requires listed { AreListed (length row.now) (at (map E.value row.now)) places.now }
    ensures bound { IsWithin result (map E.value row.now) }
    ensures reached { 0 < result → Any (λ entry. nat_abs entry ≡ result) (map E.value row.now) }
{
    let mut largest = 0;
    for k in places {
        largest = row[*k].size().max(largest);
    }
    largest
}
