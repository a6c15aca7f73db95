//! A row whose position is open clears a column in the other rows.

ghost use Rattle.std.specs.Prelude.{◌≡◌, ◌≤◌, ℕ, nat_abs, set, OnOk, IfErr};
ghost use Rattle.rob_simplex.specs.Begun.{IsBroken};
ghost use Rattle.rob_number.specs.Counts.{CountsOnly};
ghost use Rattle.rob_simplex.specs.Dictionaries.{positions, rows_of, IsBegunPivot, ClearsTable, StopsTable, IsSized};
ghost use Rattle.rob_simplex.specs.Pivots.{CanClear, CanPivot, HasPivoted, RefusesPivot};

use crate::dictionary::Dictionary;
use rob_entries::Entry;
use rob_number::Ledger;
use rob_table::table::{Pivot, clear_rows};

impl<E: Entry> Dictionary<E> {
    /// Clears the column in all rows before `count` but this one, whose position is open. After an `Err`, which names
    /// the first row that would be wide, the rows before it are cleared, and the others are as they were.
    pub fn clear_others<L: Ledger>(
        &mut self,
        row: usize,
        column: usize,
        count: usize,
        ledger: &mut L,
    ) -> Result<(), usize>
        requires ready { CanClear count self.old row column }
        ensures cleared { OnOk result (ClearsTable count self.old self.new row column) }
        ensures stopped { IfErr result (λ i. StopsTable self.old.limit count self.old self.new row
            column i) }
        ensures basis { self.new.basis ≡ self.old.basis }
        ensures sized { IsSized self.old self.new }
        ensures counted { CountsOnly L.ops L.wides ledger.old ledger.new }
    {
        let width = self.columns + 4;
        let start = row * width;
        self.rows.load(&mut self.pivot_row, start, self.bounds[row]);
        let pivot = Pivot {
            row,
            place: self.places[column],
            width,
        };
        clear_rows(
            &mut self.rows,
            self.bounds.as_mut_slice(),
            &mut self.pivot_row,
            pivot,
            count,
            ledger,
        )
    }

    /// A column comes in at a position, and is cleared in all other rows before `count`. After an `Err`, which names
    /// the first row that would be wide, the position is open and the pivot begun.
    pub fn pivot_or_open<L: Ledger>(
        &mut self,
        row: usize,
        column: usize,
        count: usize,
        ledger: &mut L,
    ) -> Result<(), usize>
        requires ready { CanPivot count self.old row column }
        ensures pivoted { OnOk result (HasPivoted count self.old self.new row column) }
        ensures refused { IfErr result (RefusesPivot self.old.limit count self.old row column) }
        ensures begun { IfErr result (λ i. IsBegunPivot self.old self.new row column) }
        ensures sized { IsSized self.old self.new }
        ensures counted { CountsOnly L.ops L.wides ledger.old ledger.new }
    {
        self.make_primitive(row);
        let spare = self.columns + self.basis.len() + 3;
        self.replace(row, spare);
        match self.clear_others(row, column, count, ledger) {
            Ok(()) => {
                self.replace(row, column);
                Ok(())
            }
            Err(i) => Err(i),
        }
    }

    /// The same, but after an `Err` the basis is the next one, and the pivot can be ended by rows of a greater limit,
    /// the kept row aside.
    pub fn pivot<L: Ledger>(
        &mut self,
        row: usize,
        column: usize,
        count: usize,
        ledger: &mut L,
    ) -> Result<(), usize>
        requires ready { CanPivot count self.old row column }
        ensures pivoted { OnOk result (HasPivoted count self.old self.new row column) }
        ensures refused { IfErr result (RefusesPivot self.old.limit count self.old row column) }
        ensures broken { IfErr result (λ i. IsBroken self.old self.new row column) }
        ensures small { (i c : ℕ) → i ≤ positions self.new → nat_abs (rows_of self.new i c)
            ≤ self.new.limit }
        ensures basis { self.new.basis ≡ set self.old.basis row column }
        ensures sized { IsSized self.old self.new }
        ensures counted { CountsOnly L.ops L.wides ledger.old ledger.new }
    {
        match self.pivot_or_open(row, column, count, ledger) {
            Ok(()) => Ok(()),
            Err(i) => {
                self.replace(row, column);
                Err(i)
            }
        }
    }
}
