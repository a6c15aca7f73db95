//! A turn of the second phase that rows of a lower limit have begun, gone on with.

ghost use Rattle.std.specs.Prelude.{◌<◌, ◌≤◌, IfErr, OnOk};
ghost use Rattle.rob_linear.specs.Programs.{Program};
ghost use Rattle.rob_linear.specs.WideRows.{HasWideRow};
ghost use Rattle.rob_simplex.specs.Begun.{HasBegunTurn};
ghost use Rattle.rob_number.specs.Counts.{CountsOnly};
ghost use Rattle.rob_simplex.specs.Dictionaries.{positions, columns_of, IsSized};
ghost use Rattle.rob_simplex.specs.Phases.{InSecond};

use crate::dictionary::Dictionary;
use rob_entries::Entry;
use rob_number::Ledger;

impl<E: Entry> Dictionary<E> {
    /// Ends a turn that was begun at this position: the position is opened again, and the rows that are not cleared
    /// are. After an `Err`, which names a row that is wide there, the rows are open.
    pub fn end_turn<L: Ledger>(&mut self, row: usize, ledger: &mut L) -> Result<(), usize>
        requires row_in { row < positions self.old }
        requires begun { (P : Program) × HasBegunTurn (InSecond P) self.old row }
        ensures turned { (P : Program) → HasBegunTurn (InSecond P) self.old row
            → OnOk result (InSecond P self.new) }
        ensures wide { (P : Program) → HasBegunTurn (InSecond P) self.old row
            → IfErr result (λ i. HasWideRow self.old.limit P (columns_of self.new.basis) i) }
        ensures position { IfErr result (λ i. i ≤ positions self.old) }
        ensures sized { IsSized self.old self.new }
        ensures counted { CountsOnly L.ops L.wides ledger.old ledger.new }
    {
        let n = self.columns();
        let m = self.positions();
        let column = self.basic(row);
        self.replace(row, n + m + 3);
        let cleared = self.clear_others(row, column, m + 1, ledger);
        self.replace(row, column);
        cleared
    }
}
