//! The numbers of rows, one row behind another. A row of a given width begins at its start.

ghost use Rattle.std.specs.Prelude.{◌≡◌, ◌⊎◌, ℕ, ℤ, ◌<◌, ◌≤◌, ◌+◌, ◌^◌, pos, neg_ℤ, nat_abs, set, take, drop, length, slice_index_or, IsFalse, IfOk, OnErr};
ghost use Rattle.rob_linear.specs.Vectors.{at};
ghost use Rattle.rob_linear.specs.Multiples.{IsClearedBy};
ghost use Rattle.rob_rows.specs.PrimitiveParts.{content};
ghost use Rattle.rob_entries.specs.Choices.{IsLowest};
ghost use Rattle.rob_entries.specs.Updates.{CanClearCells, IsMultipleOf, IsWideCleared};

use crate::clearing::{Cell, PivotRow};
use crate::entry::Entry;
use crate::rows::{lowest_column, negate};
use crate::scans::lowest_marked;
use crate::updates::mark_of;
use rob_number::Wide;
use std::alloc::{AllocError, Global};
use std::marker::Model;

/// The numbers of rows, one row behind another, with a map of those that may not be 0. Contracts see the list of the
/// numbers.
#[derive(Drop)]
pub struct Cells<E: Entry> {
    items: Vec<E>,
    marks: Vec<bool>,
}

impl<E: Entry> Model for Cells<E> {
    ghost use Rattle.std.specs.Prelude.{List, ℤ, map};
    ghost use Rattle.rob_entries.specs.Maps.{IsMapped};

    ghost Value = { List ℤ };

    ghost view = { λ cells. map E.value cells.items.items };

    ghost invariant = { λ cells. IsMapped (map E.value cells.items.items) cells.marks.items };
}

impl<E: Entry> Cells<E> {
    // ---- make
    /// So many zeros.
    pub fn new(alloc: Global, count: usize) -> Result<Cells<E>, AllocError>
        ensures size { IfOk result (λ cells. length cells ≡ count) }
        ensures zeros { IfOk result (λ cells. (k : ℕ) → at cells k ≡ pos 0) }
    {
        Ok(Cells {
            items: vec![in alloc; E::of(0); count]?,
            marks: vec![in alloc; false; count]?,
        })
    }

    /// The numbers of another one, each of 62 bits, as entries of this type.
    pub fn deepened<F: Entry>(alloc: Global, other: &Cells<F>) -> Result<Cells<E>, AllocError>
        requires short { (k : ℕ) → k < length other.now → nat_abs (at other.now k) < 2 ^ 62 }
        ensures same { IfOk result (λ cells. cells ≡ other.now) }
    {
        let count = other.len();
        let mut cells = Cells::new(alloc, count)?;
        for k in 0..count {
            cells.set(k, deeper(other.get(k)));
        }
        Ok(cells)
    }

    /// Copies the other one, which has as many numbers.
    pub fn copy_from(&mut self, other: &Cells<E>)
        requires size { length self.old ≡ length other.now }
        ensures same { self.new ≡ other.now }
    {
        self.items
            .as_mut_slice()
            .copy_from_slice(other.items.as_slice());
        self.marks
            .as_mut_slice()
            .copy_from_slice(other.marks.as_slice());
    }

    // ---- read
    /// The number of numbers.
    pub fn len(&self) -> usize
        ensures len { result ≡ length self.now }
    {
        self.items.len()
    }

    /// The number at a place. Its mark is looked at first, so a scan of one column touches few of the numbers.
    #[inline(always)]
    pub fn get(&self, k: usize) -> E
        requires inside { k < length self.now }
        ensures entry { E.value result ≡ at self.now k }
    {
        if self.marks[k] {
            self.items[k]
        } else {
            E::of(0)
        }
    }

    /// The same without a look at its mark, which is quicker where most numbers are not 0.
    #[inline(always)]
    pub fn read(&self, k: usize) -> E
        requires inside { k < length self.now }
        ensures entry { E.value result ≡ at self.now k }
    {
        self.items[k]
    }

    /// Whether the number at a place may not be 0.
    #[inline(always)]
    pub fn is_marked(&self, k: usize) -> bool
        requires inside { k < length self.now }
        ensures off { IsFalse result → at self.now k ≡ pos 0 }
    {
        self.marks[k]
    }

    /// The greatest size of a row's entries, 0 where there is none.
    pub fn largest(&self, start: usize, width: usize) -> u128
        requires inside { start + width ≤ length self.now }
        ensures bound { (k : ℕ) → k < width → nat_abs (at self.now (start + k)) ≤ result }
        ensures reached { 0 < result → (k : ℕ) × (k < width)
            × (nat_abs (at self.now (start + k)) ≡ result) }
    {
        E::largest(&self.items.as_slice()[start..start + width])
    }

    /// The lowest column with a negative entry among a row's first `count` places, or the given one where none is
    /// lower.
    pub fn lowest_negative(
        &self,
        start: usize,
        near: &[usize],
        count: usize,
        before: usize,
    ) -> usize
        requires row_in { start + count ≤ length self.now }
        requires near_in { count ≤ length near.now }
        ensures lowest { IsLowest (λ k. at self.now (start + k))
            (λ k. slice_index_or near.now k 0) count before
            result }
    {
        lowest_column(&self.items.as_slice()[start..start + count], near, before)
    }

    /// A column such that of a row's first `count` places those are 0 whose column comes from `low` on and before it;
    /// the given one at most.
    pub fn lowest_some(
        &self,
        start: usize,
        near: &[usize],
        count: usize,
        low: usize,
        before: usize,
    ) -> usize
        requires row_in { start + count ≤ length self.now }
        requires near_in { count ≤ length near.now }
        ensures low { result ≤ before }
        ensures zeros { (k : ℕ) → k < count → low ≤ slice_index_or near.now k 0
            → slice_index_or near.now k 0 < result
            → at self.now (start + k) ≡ pos 0 }
    {
        lowest_marked(
            &self.marks.as_slice()[start..start + count],
            near,
            low,
            before,
        )
    }

    // ---- write
    /// Writes a number at a place.
    pub fn set(&mut self, k: usize, entry: E)
        requires inside { k < length self.old }
        ensures written { self.new ≡ set self.old k (E.value entry) }
    {
        self.items[k] = entry;
        self.marks[k] = mark_of(entry);
    }

    /// Exchanges the numbers at two places, and their marks.
    pub fn swap(&mut self, a: usize, b: usize)
        requires a_in { a < length self.old }
        requires b_in { b < length self.old }
        ensures swapped { self.new ≡ set (set self.old a (at self.old b)) b (at self.old a) }
    {
        let first = self.items[a];
        let second = self.items[b];
        let first_mark = self.marks[a];
        let second_mark = self.marks[b];
        self.items[a] = second;
        self.items[b] = first;
        self.marks[a] = second_mark;
        self.marks[b] = first_mark;
    }

    /// Negates a row's entries.
    pub fn negate(&mut self, start: usize, width: usize, bound: u128)
        requires inside { start + width ≤ length self.old }
        requires within { (k : ℕ) → k < width → nat_abs (at self.old (start + k)) ≤ bound }
        requires bound { bound ≤ E.top }
        ensures row { (k : ℕ) → k < width → at self.new (start + k)
            ≡ neg_ℤ (at self.old (start + k)) }
        ensures others { (k : ℕ) → (k < start) ⊎ (start + width ≤ k) → at self.new k
            ≡ at self.old k }
        ensures size { length self.new ≡ length self.old }
    {
        negate(&mut self.items.as_mut_slice()[start..start + width], bound);
    }

    /// Divides a row by what divides all its entries. They stay within the limit.
    pub fn reduce(&mut self, start: usize, width: usize, limit: u128)
        requires inside { start + width ≤ length self.old }
        requires limit { limit ≤ E.top }
        requires within { (k : ℕ) → k < width → nat_abs (at self.old (start + k)) ≤ limit }
        ensures row { IsMultipleOf width (λ k. at self.old (start + k))
            (λ k. at self.new (start + k)) }
        ensures lowest { content (take width (drop start self.new)) ≤ 1 }
        ensures bounded { (k : ℕ) → k < width → nat_abs (at self.new (start + k)) ≤ limit }
        ensures others { (k : ℕ) → (k < start) ⊎ (start + width ≤ k) → at self.new k
            ≡ at self.old k }
        ensures size { length self.new ≡ length self.old }
    {
        let row = &mut self.items.as_mut_slice()[start..start + width];
        E::reduce(row, limit);
    }

    // ---- clear
    /// Takes the row from `start` on, which the number bounds, as the one that clears others. The copy is in lowest
    /// terms.
    pub fn load(&self, row: &mut PivotRow<E>, start: usize, bound: u128)
        requires inside { start + length row.old.entries ≤ length self.now }
        requires within { (k : ℕ) → k < length row.old.entries → nat_abs (at self.now (start + k))
            ≤ bound }
        requires bound { bound ≤ E.top }
        ensures entries { IsMultipleOf (length row.old.entries) (λ k. at self.now (start + k))
            (at row.new.entries) }
        ensures size { length row.new.entries ≡ length row.old.entries }
        ensures bound { row.new.bound ≤ bound }
    {
        let width = row.width();
        row.load(&self.items.as_slice()[start..start + width], bound);
    }

    /// The row from `start` on is cleared of its entry at the place, and a number is told that bounds its entries.
    /// `Wide` where that row in lowest terms has an entry over the limit; then nothing changes.
    pub fn clear(
        &mut self,
        start: usize,
        row: &mut PivotRow<E>,
        bound: u128,
        place: usize,
        limit: u128,
    ) -> Result<u128, Wide>
        requires ready { CanClearCells E.top limit self.old row.old bound place start }
        ensures cleared { IfOk result (λ _. IsClearedBy (length row.old.entries) place
            (λ k. at self.old (start + k)) (at row.old.entries) (λ k. at self.new (start + k))) }
        ensures bounded { IfOk result (λ sum. (sum ≤ limit) × ((k : ℕ) → k < length row.old.entries
            → nat_abs (at self.new (start + k)) ≤ sum)) }
        ensures others { (k : ℕ) → (k < start) ⊎ (start + length row.old.entries ≤ k)
            → at self.new k ≡ at self.old k }
        ensures size { length self.new ≡ length self.old }
        ensures wide { OnErr result (IsWideCleared limit (length row.old.entries) place
            (λ k. at self.old (start + k)) (at row.old.entries)) }
        ensures unchanged { OnErr result (self.new ≡ self.old) }
        ensures same { row.new ≡ row.old }
    {
        let width = row.width();
        let marks = self.marks.as_mut_slice();
        row.clear(
            &mut self.items.as_mut_slice()[start..start + width],
            marks,
            Cell { start, place },
            bound,
            limit,
        )
    }
}

/// An entry of 62 bits as one of another type.
fn deeper<F: Entry, E: Entry>(entry: F) -> E
    requires short { nat_abs (F.value entry) < 2 ^ 62 }
    ensures value { E.value result ≡ F.value entry }
{
    E::of(entry.whole().unwrap())
}
