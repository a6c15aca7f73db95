//! The second phase: turns from a feasible basis of the program to its last one.

ghost use Rattle.std.specs.Prelude.{◌≡◌, ◌≤◌, IfOk, IfErr, MatchResult};
ghost use Rattle.rob_linear.specs.Programs.{Program};
ghost use Rattle.rob_linear.specs.Paths.{LastFrom};
ghost use Rattle.rob_linear.specs.WideRows.{HasWideRowFrom};
ghost use Rattle.rob_simplex.specs.Dictionaries.{positions, columns_of, IsSized};
ghost use Rattle.rob_number.specs.Counts.{CountsOnly};
ghost use Rattle.rob_simplex.specs.Phases.{StandsFor, HasTurned, HasRefused, EndsFrom};
ghost use Rattle.rob_simplex.specs.Judging.{Tells};
ghost use Rattle.rob_simplex.specs.PathEnds.{PathStopsFrom};
ghost use Rattle.rob_simplex.specs.Begun.{HasBegunAt, StandsFrom, HaltsAt};

use crate::dictionary::Dictionary;
use crate::state::{Cause, Halt};
use rob_entries::Entry;
use rob_number::{Exact, Ledger};

/// What a basis does next.
#[derive(Clone, Copy, Drop)]
pub enum Turn {
    /// No column improves the objective.
    Optimal,
    /// This column improves it without limit.
    Unbounded(usize),
    /// A column has come in for another one.
    Replaced,
}

impl<E: Entry> Dictionary<E> {
    /// Makes the next turn, if there is one. After an `Err`, which names a row that is wide there, the basis is the
    /// next one, and the turn was begun.
    fn advance<L: Ledger>(&mut self, ledger: &mut L) -> Result<Turn, Halt>
        requires stands { (P : Program) × StandsFor P self.old }
        ensures turned { IfOk result (λ turn. (P : Program) → StandsFor P self.old
            → HasTurned P turn self.old self.new) }
        ensures wide { IfErr result (λ halt. (P : Program) → StandsFor P self.old
            → HasRefused self.old.limit P halt.position self.old self.new) }
        ensures begun { IfErr result (λ halt. HasBegunAt (λ t. t ≡ self.old) halt.cause self.new) }
        ensures position { IfErr result (λ halt. halt.position ≤ positions self.old) }
        ensures sized { IsSized self.old self.new }
        ensures counted { CountsOnly L.ops L.wides ledger.old ledger.new }
    {
        let m = self.basis.len();
        let Some(column) = self.first_negative(m) else {
            return Ok(Turn::Optimal);
        };
        let Some(row) = self.leaving(column) else {
            return Ok(Turn::Unbounded(column));
        };
        match self.pivot(row, column, m + 1, ledger) {
            Ok(()) => Ok(Turn::Replaced),
            Err(i) => Err(Halt {
                position: i,
                cause: Cause::Turn(row),
            }),
        }
    }

    /// Turns until the path from the basis that stands ends: with `None` where no column improves the objective, else
    /// with the column that improves it without limit. An `Err` names a row that is wide at the basis that is then
    /// told.
    pub fn improve<L: Ledger>(&mut self, ledger: &mut L) -> Result<Option<usize>, Halt>
        requires stands { (P : Program) × StandsFor P self.old }
        ensures told { (P : Program) → StandsFor P self.old
            → MatchResult result
            (λ ending. EndsFrom P (columns_of self.old.basis) ending self.new)
            (λ halt. HasWideRowFrom self.old.limit P (columns_of self.old.basis) (columns_of self.new.basis)
            halt.position) }
        ensures begun { (P : Program) → StandsFor P self.old → IfErr result
            (λ halt. HasBegunAt (StandsFrom P (columns_of self.old.basis)) halt.cause self.new) }
        ensures position { IfErr result (λ halt. halt.position ≤ positions self.old) }
        ensures sized { IsSized self.old self.new }
        ensures counted { CountsOnly L.ops L.wides ledger.old ledger.new }
    {
        'turns: loop {
            match self.advance(ledger) {
                Ok(Turn::Optimal) => return Ok(None),
                Ok(Turn::Unbounded(column)) => return Ok(Some(column)),
                Ok(Turn::Replaced) => {}
                Err(halt) => return Err(halt),
            }
        }
    }

    /// The same, and the numbers that the last rows tell are judged at the width of `N`: an `Err` names the first
    /// position whose row tells one that doesn't fit, or a row that was wide.
    pub fn improve_and_judge<N: Exact, L: Ledger>(
        &mut self,
        ledger: &mut L,
    ) -> Result<Option<usize>, Halt>
        requires stands { (P : Program) × StandsFor P self.old }
        requires limit { N.limit ≤ self.old.limit }
        ensures told { (P : Program) → StandsFor P self.old
            → MatchResult result
            (λ ending. EndsFrom P (columns_of self.old.basis) ending self.new × Tells N.limit ending self.new)
            (λ halt. HasWideRowFrom N.limit P (columns_of self.old.basis) (columns_of self.new.basis) halt.position) }
        ensures caused { (P : Program) → StandsFor P self.old → IfErr result
            (λ halt. PathStopsFrom N.limit P (columns_of self.old.basis) self.new halt.position) }
        ensures halted { (P : Program) → StandsFor P self.old → IfErr result
            (λ halt. HaltsAt (LastFrom P (columns_of self.old.basis)) (StandsFrom P (columns_of self.old.basis))
            N.limit P halt.position halt.cause self.new) }
        ensures position { IfErr result (λ halt. halt.position ≤ positions self.old) }
        ensures sized { IsSized self.old self.new }
        ensures counted { CountsOnly L.ops L.wides ledger.old ledger.new }
    {
        match self.improve(ledger) {
            Ok(growing) => match self.judge::<N>(growing) {
                None => Ok(growing),
                Some(i) => Err(Halt {
                    position: i,
                    cause: Cause::Told,
                }),
            },
            Err(halt) => Err(halt),
        }
    }
}
