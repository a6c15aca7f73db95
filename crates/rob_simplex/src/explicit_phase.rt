//! The first phase in the explicit form, in which the auxiliary column is basic: the way out where the first phase
//! beside it meets a row that would be wide.

ghost use Rattle.std.specs.Prelude.{◌≡◌, ◌≤◌, IfOk, IfErr, MatchResult};
ghost use Rattle.rob_linear.specs.Programs.{Program};
ghost use Rattle.rob_number.specs.Counts.{CountsOnly};
ghost use Rattle.rob_simplex.specs.Dictionaries.{positions, columns_of, IsSized};
ghost use Rattle.rob_simplex.specs.Phases.{IsOpenBeside};
ghost use Rattle.rob_simplex.specs.Explicit.{InExplicit, HasTurnedExplicit, FirstTurns, StopsFirst, turn_after};

use crate::dictionary::Dictionary;
use crate::first_phase::FirstEnding;
use rob_entries::Entry;
use rob_number::Ledger;

/// What a basis of the explicit form does next.
#[derive(Clone, Copy, Drop)]
pub enum ExplicitTurn {
    /// No column improves the auxiliary objective.
    Ended,
    /// The auxiliary column has left.
    Left,
    /// A column has come in, and the auxiliary column is still basic.
    Stays,
}

impl<E: Entry> Dictionary<E> {
    /// Goes on in the explicit form, where position q is open, to the end of the first phase. An `Err` names a
    /// row that is wide at the basis that is then told.
    pub fn explicit_turns<L: Ledger>(
        &mut self,
        q: usize,
        ledger: &mut L,
    ) -> Result<FirstEnding, usize>
        requires opened { (P : Program) × IsOpenBeside P q self.old }
        ensures ended { (P : Program) → IsOpenBeside P q self.old
            → MatchResult result
            (λ ending. FirstTurns P ending self.new)
            (λ i. StopsFirst self.old.limit P (columns_of self.new.basis) i) }
        ensures position { IfErr result (λ i. i ≤ positions self.old) }
        ensures sized { IsSized self.old self.new }
        ensures counted { CountsOnly L.ops L.wides ledger.old ledger.new }
    {
        match self.bring_in(q, ledger) {
            Ok(()) => self.drive_out(ledger),
            Err(i) => Err(i),
        }
    }

    /// Goes over to the explicit form, where position q is open and its row has been negated: the kept row stands
    /// behind the objective's, and the auxiliary column comes in at q. An `Err` names a row that is wide at the basis
    /// that is then told.
    fn bring_in<L: Ledger>(&mut self, q: usize, ledger: &mut L) -> Result<(), usize>
        requires opened { (P : Program) × IsOpenBeside P q self.old }
        ensures ended { (P : Program) → IsOpenBeside P q self.old
            → MatchResult result
            (λ _. InExplicit P self.new)
            (λ i. StopsFirst self.old.limit P (columns_of self.new.basis) i) }
        ensures position { IfErr result (λ i. i ≤ positions self.old) }
        ensures sized { IsSized self.old self.new }
        ensures counted { CountsOnly L.ops L.wides ledger.old ledger.new }
    {
        let n = self.columns();
        let m = self.positions();
        self.keep_objective();
        self.write_auxiliary();
        let cleared = self.clear_others(q, n + m, m + 2, ledger);
        self.replace(q, n + m);
        match cleared {
            Ok(()) => Ok(()),
            Err(i) => Err(i.min(m)),
        }
    }

    /// Turns until the auxiliary column has left, or no column improves its objective: then the weights stand in row m.
    fn drive_out<L: Ledger>(&mut self, ledger: &mut L) -> Result<FirstEnding, usize>
        requires stands { (P : Program) × InExplicit P self.old }
        ensures ended { (P : Program) → InExplicit P self.old
            → MatchResult result
            (λ ending. FirstTurns P ending self.new)
            (λ i. StopsFirst self.old.limit P (columns_of self.new.basis) i) }
        ensures position { IfErr result (λ i. i ≤ positions self.old) }
        ensures sized { IsSized self.old self.new }
        ensures counted { CountsOnly L.ops L.wides ledger.old ledger.new }
    {
        'turns: loop {
            match self.turn_explicit(ledger) {
                Ok(ExplicitTurn::Ended) => {
                    return Ok(FirstEnding::Infeasible(self.positions()));
                }
                Ok(ExplicitTurn::Left) => {
                    self.restore_objective();
                    return Ok(FirstEnding::Feasible);
                }
                Ok(ExplicitTurn::Stays) => {}
                Err(i) => return Err(i),
            }
        }
    }

    /// Makes the next turn, if there is one. After an `Err`, which names a row that is wide there, the basis is the
    /// next one.
    fn turn_explicit<L: Ledger>(&mut self, ledger: &mut L) -> Result<ExplicitTurn, usize>
        requires stands { (P : Program) × InExplicit P self.old }
        ensures turned { IfOk result (λ turn. (P : Program) → InExplicit P self.old
            → HasTurnedExplicit P turn self.old self.new) }
        ensures wide { IfErr result (λ i. (P : Program) → InExplicit P self.old
            → StopsFirst self.old.limit P (columns_of self.new.basis) i) }
        ensures position { IfErr result (λ i. i ≤ positions self.old) }
        ensures sized { IsSized self.old self.new }
        ensures counted { CountsOnly L.ops L.wides ledger.old ledger.new }
    {
        let m = self.basis.len();
        let Some(column) = self.first_negative(m) else {
            return Ok(ExplicitTurn::Ended);
        };
        let Some(row) = self.leaving(column) else {
            return Ok(ExplicitTurn::Ended);
        };
        let left = self.basic(row);
        let auxiliary = self.columns + m;
        match self.pivot(row, column, m + 2, ledger) {
            Ok(()) => Ok(after(left == auxiliary)),
            Err(i) => Err(i.min(m)),
        }
    }
}

/// What a turn has done, by whether the auxiliary column was the one that left.
fn after(left: bool) -> ExplicitTurn
    ensures turn { result ≡ turn_after left }
{
    if left {
        ExplicitTurn::Left
    } else {
        ExplicitTurn::Stays
    }
}
