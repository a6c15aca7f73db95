//! The first phase, with the auxiliary column kept out of the table's basis: the path's basis has it at position q,
//! where the table has the column that left last.

ghost use Rattle.std.specs.Prelude.{◌≤◌, ◌+◌, IfOk, IfErr, OnOk, MatchResult};
ghost use Rattle.rob_linear.specs.Programs.{Program};
ghost use Rattle.rob_number.specs.Counts.{CountsOnly};
ghost use Rattle.rob_simplex.specs.Dictionaries.{positions, columns_of, rows_of, FirstNegative, IsSized};
ghost use Rattle.rob_simplex.specs.Phases.{InBeside, HasTurnedBeside, IsOpenBeside, EndsBeside};
ghost use Rattle.rob_simplex.specs.LeastRows.{AreKnown};
ghost use Rattle.rob_simplex.specs.Starts.{IsStartingTable};
ghost use Rattle.rob_simplex.specs.Explicit.{FirstTurns, FirstEnds, StopsFirst};

use crate::dictionary::Dictionary;
use crate::known_rows::{KNOWN, forget, forget_all};
use rob_entries::Entry;
use rob_number::Ledger;

/// How the first phase ends.
#[derive(Clone, Copy, Drop)]
pub enum FirstEnding {
    /// The auxiliary column is out.
    Feasible,
    /// No point is feasible: the slack entries of this row, over what divides them all, are the weights.
    Infeasible(usize),
}

/// How the turns beside the auxiliary column end.
#[derive(Clone, Copy, Drop)]
pub enum Beside {
    /// No column comes in: no point is feasible.
    Infeasible,
    /// The auxiliary column is out.
    Feasible,
    /// A row would be wide: position q is open, and the path goes on in the explicit form.
    Open,
}

impl<E: Entry> Dictionary<E> {
    /// The first phase, from the starting rows. The auxiliary column is 0 where it is out. An `Err` names a row that is
    /// wide at the basis that is then told.
    pub fn first_phase<L: Ledger>(&mut self, ledger: &mut L) -> Result<FirstEnding, usize>
        requires starts { (P : Program) × IsStartingTable P self.old }
        ensures ended { (P : Program) → IsStartingTable P self.old
            → MatchResult result
            (λ ending. FirstEnds P ending self.new)
            (λ i. StopsFirst self.old.limit P (columns_of self.new.basis) i) }
        ensures position { IfErr result (λ i. i ≤ positions self.old) }
        ensures sized { IsSized self.old self.new }
        ensures counted { CountsOnly L.ops L.wides ledger.old ledger.new }
    {
        match self.first_turns(ledger) {
            Ok(FirstEnding::Feasible) => {
                let n = self.columns();
                let m = self.positions();
                self.empty(n + m);
                Ok(FirstEnding::Feasible)
            }
            Ok(FirstEnding::Infeasible(row)) => Ok(FirstEnding::Infeasible(row)),
            Err(i) => Err(i),
        }
    }

    /// Its turns, with room for the rows that are known not to be negative.
    fn first_turns<L: Ledger>(&mut self, ledger: &mut L) -> Result<FirstEnding, usize>
        requires starts { (P : Program) × IsStartingTable P self.old }
        ensures ended { (P : Program) → IsStartingTable P self.old
            → MatchResult result
            (λ ending. FirstTurns P ending self.new)
            (λ i. StopsFirst self.old.limit P (columns_of self.new.basis) i) }
        ensures position { IfErr result (λ i. i ≤ positions self.old) }
        ensures sized { IsSized self.old self.new }
        ensures counted { CountsOnly L.ops L.wides ledger.old ledger.new }
    {
        let mut known = [false; KNOWN];
        self.first_turns_by(&mut known, ledger)
    }

    /// The same. The least row tells whether the auxiliary column is needed.
    fn first_turns_by<L: Ledger>(
        &mut self,
        known: &mut [bool],
        ledger: &mut L,
    ) -> Result<FirstEnding, usize>
        requires starts { (P : Program) × IsStartingTable P self.old }
        ensures ended { (P : Program) → IsStartingTable P self.old
            → MatchResult result
            (λ ending. FirstTurns P ending self.new)
            (λ i. StopsFirst self.old.limit P (columns_of self.new.basis) i) }
        ensures position { IfErr result (λ i. i ≤ positions self.old) }
        ensures sized { IsSized self.old self.new }
        ensures counted { CountsOnly L.ops L.wides ledger.old ledger.new }
    {
        forget_all(known);
        let Some(q) = self.least(known) else {
            return Ok(FirstEnding::Feasible);
        };
        match self.go_beside(q, known, ledger) {
            Beside::Infeasible => Ok(FirstEnding::Infeasible(q)),
            Beside::Feasible => Ok(FirstEnding::Feasible),
            Beside::Open => self.explicit_turns(q, ledger),
        }
    }

    /// Turns beside the auxiliary column until it has left, no column comes in, or a row would be wide.
    fn go_beside<L: Ledger>(&mut self, q: usize, known: &mut [bool], ledger: &mut L) -> Beside
        requires stands { (P : Program) × InBeside P q self.old }
        requires known { AreKnown self.old known.old }
        ensures ended { (P : Program) → InBeside P q self.old → EndsBeside P q result self.new }
        ensures sized { IsSized self.old self.new }
        ensures counted { CountsOnly L.ops L.wides ledger.old ledger.new }
    {
        'turns: loop {
            let Some(column) = self.first_negative(q) else {
                return Beside::Infeasible;
            };
            match self.turn_beside(q, column, known, ledger) {
                Ok(true) => {}
                Ok(false) => return Beside::Feasible,
                Err(_) => return Beside::Open,
            }
        }
    }

    /// One turn: the column comes in at position q, and the least row comes to it. Whether the auxiliary column is
    /// still in; after an `Err` position q is open. Rows that are known not to be negative stay so where they are 0 in
    /// the column.
    fn turn_beside<L: Ledger>(
        &mut self,
        q: usize,
        column: usize,
        known: &mut [bool],
        ledger: &mut L,
    ) -> Result<bool, usize>
        requires stands { (P : Program) × InBeside P q self.old }
        requires first { FirstNegative (self.old.columns + positions self.old)
            (rows_of self.old q) column }
        requires known { AreKnown self.old known.old }
        ensures turned { IfOk result (λ stays. (P : Program) → InBeside P q self.old
            → HasTurnedBeside P q stays self.old self.new) }
        ensures opened { IfErr result (λ i. (P : Program) → InBeside P q self.old
            → IsOpenBeside P q self.new) }
        ensures known { OnOk result (AreKnown self.new known.new) }
        ensures sized { IsSized self.old self.new }
        ensures counted { CountsOnly L.ops L.wides ledger.old ledger.new }
    {
        let m = self.basis.len();
        self.spare(known, q, column);
        self.negate(q);
        match self.pivot_or_open(q, column, m + 1, ledger) {
            Ok(()) => match self.least(known) {
                None => Ok(false),
                Some(p) => {
                    self.exchange(q, p);
                    forget(known, q);
                    forget(known, p);
                    Ok(true)
                }
            },
            Err(i) => Err(i),
        }
    }
}
