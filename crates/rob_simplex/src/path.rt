//! The path of bases of a program, through both phases.

ghost use Rattle.std.specs.Prelude.{◌<◌, ◌≤◌, IfErr, MatchResult};
ghost use Rattle.rob_linear.specs.Programs.{Program};
ghost use Rattle.rob_linear.specs.Paths.{Last};
ghost use Rattle.rob_linear.specs.WideRows.{HasWideRow};
ghost use Rattle.rob_number.specs.Counts.{CountsOnly};
ghost use Rattle.rob_simplex.specs.Dictionaries.{positions, columns_of, IsSized};
ghost use Rattle.rob_simplex.specs.Starts.{IsStartingTable};
ghost use Rattle.rob_simplex.specs.Phases.{InSecond};
ghost use Rattle.rob_simplex.specs.PathEnds.{PathEnds, PathTells, PathStops};
ghost use Rattle.rob_simplex.specs.Begun.{HaltsAt, HasBegunAt, HasBegunTurn};

use crate::dictionary::Dictionary;
use crate::first_phase::FirstEnding;
use crate::state::{Cause, Halt};
use rob_entries::Entry;
use rob_number::{Exact, Ledger};

/// How a path ends.
#[derive(Clone, Copy, Drop)]
pub enum Ending {
    /// With a best point.
    Optimal,
    /// In the first phase: no point is feasible, as the slack entries of this row show.
    Infeasible(usize),
    /// With this column, which improves the objective without limit.
    Unbounded(usize),
}

impl<E: Entry> Dictionary<E> {
    /// Follows the path from the slack columns and the starting rows to its last basis. An `Err` names a row that is
    /// wide at the basis that is then told. Rows may be wider than `N`; the numbers that the last ones tell of a point
    /// fit it.
    pub fn follow<N: Exact, L: Ledger>(&mut self, ledger: &mut L) -> Result<Ending, Halt>
        requires starts { (P : Program) × IsStartingTable P self.old }
        requires limit { N.limit ≤ self.old.limit }
        ensures told { (P : Program) → IsStartingTable P self.old
            → MatchResult result
            (λ ending. PathEnds P ending self.new × PathTells N.limit ending self.new)
            (λ halt. HasWideRow N.limit P (columns_of self.new.basis) halt.position) }
        ensures caused { (P : Program) → IsStartingTable P self.old
            → IfErr result (λ halt. PathStops N.limit P self.new halt.position) }
        ensures halted { (P : Program) → IsStartingTable P self.old → IfErr result
            (λ halt. HaltsAt (Last P) (InSecond P) N.limit P halt.position halt.cause self.new) }
        ensures position { IfErr result (λ halt. halt.position ≤ positions self.old) }
        ensures sized { IsSized self.old self.new }
        ensures counted { CountsOnly L.ops L.wides ledger.old ledger.new }
    {
        match self.first_phase(ledger) {
            Ok(FirstEnding::Feasible) => self.improve_to_end::<N, L>(ledger),
            Ok(FirstEnding::Infeasible(row)) => Ok(Ending::Infeasible(row)),
            Err(i) => Err(Halt {
                position: i,
                cause: Cause::First,
            }),
        }
    }

    /// Follows the path to its last basis from the turn that was begun where it stopped. It answers as `follow` does.
    pub fn follow_on<N: Exact, L: Ledger>(
        &mut self,
        cause: Cause,
        ledger: &mut L,
    ) -> Result<Ending, Halt>
        requires begun { (P : Program) × HasBegunAt (InSecond P) cause self.old }
        requires limit { N.limit ≤ self.old.limit }
        ensures told { (P : Program) → HasBegunAt (InSecond P) cause self.old
            → MatchResult result
            (λ ending. PathEnds P ending self.new × PathTells N.limit ending self.new)
            (λ halt. HasWideRow N.limit P (columns_of self.new.basis) halt.position) }
        ensures caused { (P : Program) → HasBegunAt (InSecond P) cause self.old
            → IfErr result (λ halt. PathStops N.limit P self.new halt.position) }
        ensures position { IfErr result (λ halt. halt.position ≤ positions self.old) }
        ensures sized { IsSized self.old self.new }
        ensures counted { CountsOnly L.ops L.wides ledger.old ledger.new }
    {
        match cause {
            Cause::Turn(row) => self.follow_second::<N, L>(row, ledger),
            Cause::Told => unreachable!(),
            Cause::First => unreachable!(),
            Cause::Elsewhere => unreachable!(),
        }
    }

    /// Follows the path from a turn of the second phase that was begun at this position.
    fn follow_second<N: Exact, L: Ledger>(
        &mut self,
        row: usize,
        ledger: &mut L,
    ) -> Result<Ending, Halt>
        requires row_in { row < positions self.old }
        requires begun { (P : Program) × HasBegunTurn (InSecond P) self.old row }
        requires limit { N.limit ≤ self.old.limit }
        ensures told { (P : Program) → HasBegunTurn (InSecond P) self.old row
            → MatchResult result
            (λ ending. PathEnds P ending self.new × PathTells N.limit ending self.new)
            (λ halt. HasWideRow N.limit P (columns_of self.new.basis) halt.position) }
        ensures caused { (P : Program) → HasBegunTurn (InSecond P) self.old row
            → IfErr result (λ halt. PathStops N.limit P self.new halt.position) }
        ensures position { IfErr result (λ halt. halt.position ≤ positions self.old) }
        ensures sized { IsSized self.old self.new }
        ensures counted { CountsOnly L.ops L.wides ledger.old ledger.new }
    {
        match self.end_turn(row, ledger) {
            Ok(()) => self.improve_to_end::<N, L>(ledger),
            Err(i) => Err(Halt {
                position: i,
                cause: Cause::Elsewhere,
            }),
        }
    }

    /// The second phase, and how it ends.
    fn improve_to_end<N: Exact, L: Ledger>(&mut self, ledger: &mut L) -> Result<Ending, Halt>
        requires stands { (P : Program) × InSecond P self.old }
        requires limit { N.limit ≤ self.old.limit }
        ensures told { (P : Program) → InSecond P self.old
            → MatchResult result
            (λ ending. PathEnds P ending self.new × PathTells N.limit ending self.new)
            (λ halt. HasWideRow N.limit P (columns_of self.new.basis) halt.position) }
        ensures caused { (P : Program) → InSecond P self.old
            → IfErr result (λ halt. PathStops N.limit P self.new halt.position) }
        ensures halted { (P : Program) → InSecond P self.old → IfErr result
            (λ halt. HaltsAt (Last P) (InSecond P) N.limit P halt.position halt.cause self.new) }
        ensures position { IfErr result (λ halt. halt.position ≤ positions self.old) }
        ensures sized { IsSized self.old self.new }
        ensures counted { CountsOnly L.ops L.wides ledger.old ledger.new }
    {
        match self.improve_and_judge::<N, L>(ledger) {
            Ok(None) => Ok(Ending::Optimal),
            Ok(Some(column)) => Ok(Ending::Unbounded(column)),
            Err(halt) => Err(halt),
        }
    }
}
