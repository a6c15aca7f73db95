//! The solver: its memory, and its answers.

ghost use Rattle.std.specs.Prelude.{◌≡◌, ◌+◌, ◌^◌, ◌<◌, ◌≤◌, suc, neg_ℤ, nat_abs, length, IfOk, IfErr, MatchResult};
ghost use Rattle.rob_algebra.specs.Fraction.{of_pair};
ghost use Rattle.rob_rows.specs.LinearPrograms.{HasNumbersWithin, program_of};
ghost use Rattle.rob_simplex.specs.Solvers.{positions, HasPoint, HasOptimum, HasRay, HasWeights, column_of, IsMadeFor, StandsAs, has_stopped};
ghost use Rattle.rob_simplex.specs.Solutions.{point_of, ray_of, dual_of, value_of, weights_of};
ghost use Rattle.rob_linear.specs.Vectors.{at};
ghost use Rattle.rob_linear.specs.Programs.{Program, with_cost};
ghost use Rattle.rob_number.specs.Counts.{CountsOnly};
ghost use Rattle.rob_simplex.specs.Dictionaries.{width_of, columns_of, rows_of, IsSized};
ghost use Rattle.rob_simplex.specs.Lowering.{IsCostOf};
ghost use Rattle.rob_algebra.specs.Width.{Fits};
ghost use Rattle.rob_simplex.specs.Judging.{ratio_of, objective_column};
ghost use Rattle.rob_simplex.specs.Endings.{IsFresh, HasAnswered, HasBegun, HasHalted, HasSolved, HasStopped, IsCaused, IsTold};
ghost use Rattle.rob_linear.specs.Paths.{Last};
ghost use Rattle.rob_simplex.specs.Begun.{HaltsAt};
ghost use Rattle.rob_simplex.specs.Phases.{InSecond};
ghost use Rattle.rob_simplex.specs.declared.state.State.TheVariants.{Stopped};
ghost use Rattle.rob_simplex.specs.Resuming.{CanResume, HasResumed, HasStoppedFrom, IsCausedFrom};

use crate::dictionary::Dictionary;
use crate::path::Ending;
use crate::solution::quotient;
use crate::state::{Cause, Halt, LpStop, State};
use rob_entries::{Cells, Entry};
use rob_number::{Exact, Ledger, LpKind, Memory};
use rob_rows::Rows;
use std::alloc::Global;
use std::marker::{Model, PhantomData};

/// A solver of one linear program by the simplex method on condensed rows of whole numbers. It takes all its memory
/// when it is made. Rows may be wider than the numbers that are told, which have the width of `N`.
pub struct Work<N: Exact, E: Entry> {
    dictionary: Dictionary<E>,
    weights: Cells<E>,
    state: State,
    number: PhantomData<N>,
}

impl<N: Exact, E: Entry> Drop for Work<N, E> {
    /// Lets go of it in one call. A derived drop would stand in each function that does.
    fn drop(self) {
        let Work {
            dictionary: _dictionary,
            weights: _weights,
            state: _state,
            number: _number,
        } = self;
    }
}

impl<N: Exact, E: Entry> Model for Work<N, E> {
    ghost use Rattle.rob_simplex.specs.Solvers.{Solver, IsSound};

    ghost Value = { Solver };

    ghost view = { λ w. record { state = w.state; dictionary = w.dictionary; weights = w.weights } };

    ghost invariant = { λ w. IsSound E.top N.limit
        (record { state = w.state; dictionary = w.dictionary; weights = w.weights }) };
}

impl<N: Exact, E: Entry> Work<N, E> {
    /// Makes a solver of the program that the source tells, row by row: all memory that it will ever need.
    pub fn new<R: Rows>(alloc: Global, source: &R) -> Result<Work<N, E>, Memory>
        requires ready { R.ready source.now }
        requires few { length (R.lp source.now).c + length (R.lp source.now).b < 2 ^ 31 }
        requires numbers { HasNumbersWithin N.limit (R.lp source.now) }
        ensures made { IfOk result (λ work. IsMadeFor (program_of (R.lp source.now)) work) }
    {
        let dictionary = Dictionary::new(alloc, source)?;
        let weights = Cells::new(alloc, source.rows())?;
        Ok(Work {
            dictionary,
            weights,
            state: State::New,
            number: PhantomData,
        })
    }

    /// A solver that stands as the other one does, whose rows have up to 62 bits: in the same state, at the same basis,
    /// with the same rows, of entries of this type. It has all the memory that it will ever need. Weights are not taken
    /// over.
    pub fn deepened<F: Entry>(alloc: Global, other: &Work<N, F>) -> Result<Work<N, E>, Memory>
        requires short { F.top < 2 ^ 62 }
        requires weightless { HasWeights other.now → ⊥ }
        ensures stands { IfOk result (StandsAs E.top other.now) }
    {
        let dictionary = Dictionary::deepened(alloc, &other.dictionary)?;
        let weights = Cells::new(alloc, dictionary.positions())?;
        Ok(Work {
            dictionary,
            weights,
            state: other.state,
            number: PhantomData,
        })
    }

    /// Solves the program: its true status, with the point, the dual values, the weights or the ray that show it. It is
    /// called once. After a stop no number may be asked for: `basis`, `cause`, `limit`, `set_to` and `deepened` may be
    /// called, and `go_on` on rows that took over where a turn was begun.
    pub fn solve<L: Ledger>(&mut self, ledger: &mut L) -> Result<LpKind, LpStop>
        requires fresh { IsFresh self.old }
        ensures solved { (P : Program) → IsMadeFor P self.old
            → MatchResult result (λ kind. HasSolved P kind self.new) (λ stop. HasStopped N.limit P stop self.new) }
        ensures caused { (P : Program) → IsMadeFor P self.old
            → IfErr result (λ stop. IsCaused N.limit P stop self.new) }
        ensures halted { (P : Program) → IsMadeFor P self.old
            → IfErr result (λ stop. HasHalted N.limit P stop self.new) }
        ensures answered { IfOk result (λ kind. HasAnswered kind self.new) }
        ensures resumable { (P : Program) → IsMadeFor P self.old
            → IfOk result (λ kind. HasPoint self.new → CanResume P self.new) }
        ensures sized { IsSized self.old.dictionary self.new.dictionary }
        ensures counted { CountsOnly L.ops L.wides ledger.old ledger.new }
    {
        let ended = self.dictionary.follow::<N, L>(ledger);
        self.tell(ended)
    }

    /// Goes on where another solver, whose rows this one took over, stopped at a turn: what was begun is ended, and the
    /// path followed to its end. It answers as `solve` does, and after a stop the same holds, but nothing goes on.
    pub fn go_on<L: Ledger>(&mut self, ledger: &mut L) -> Result<LpKind, LpStop>
        requires begun { (P : Program) × HasBegun P self.old }
        ensures solved { (P : Program) → HasBegun P self.old
            → MatchResult result (λ kind. HasSolved P kind self.new) (λ stop. HasStopped N.limit P stop self.new) }
        ensures caused { (P : Program) → HasBegun P self.old
            → IfErr result (λ stop. IsCaused N.limit P stop self.new) }
        ensures answered { IfOk result (λ kind. HasAnswered kind self.new) }
        ensures resumable { (P : Program) → HasBegun P self.old
            → IfOk result (λ kind. HasPoint self.new → CanResume P self.new) }
        ensures sized { IsSized self.old.dictionary self.new.dictionary }
        ensures counted { CountsOnly L.ops L.wides ledger.old ledger.new }
    {
        let cause = self.cause();
        let ended = self.dictionary.follow_on::<N, L>(cause, ledger);
        self.tell(ended)
    }

    /// What the end of the path tells, or why it was not followed to its end.
    fn tell(&mut self, ended: Result<Ending, Halt>) -> Result<LpKind, LpStop>
        requires told { (P : Program) × IsTold N.limit P ended self.old }
        ensures solved { (P : Program) → IsTold N.limit P ended self.old
            → MatchResult result (λ kind. HasSolved P kind self.new) (λ stop. HasStopped N.limit P stop self.new) }
        ensures caused { (P : Program) → IsTold N.limit P ended self.old
            → IfErr result (λ stop. IsCaused N.limit P stop self.new) }
        ensures halted { (P : Program) → IsTold N.limit P ended self.old
            → IfErr ended (λ halt. HaltsAt (Last P) (InSecond P) N.limit P halt.position halt.cause self.old.dictionary)
            → IfErr result (λ stop. HasHalted N.limit P stop self.new) }
        ensures answered { IfOk result (λ kind. HasAnswered kind self.new) }
        ensures resumable { (P : Program) → IsTold N.limit P ended self.old
            → IfOk result (λ kind. HasPoint self.new → CanResume P self.new) }
        ensures sized { IsSized self.old.dictionary self.new.dictionary }
    {
        let ending = match ended {
            Ok(ending) => ending,
            Err(halt) => {
                self.state = State::Stopped(halt.cause);
                return Err(LpStop::Wide(halt.position as u32));
            }
        };
        match ending {
            Ending::Optimal => {
                self.state = State::Optimal;
                Ok(LpKind::Optimal)
            }
            Ending::Infeasible(row) => {
                self.dictionary.show_weights(row, &mut self.weights);
                let m = self.dictionary.positions();
                if self.weights.largest(0, m) > N::LIMIT as u128 {
                    self.state = State::Stopped(Cause::Told);
                    return Err(LpStop::Wide(m as u32));
                }
                self.state = State::Infeasible;
                Ok(LpKind::Infeasible)
            }
            Ending::Unbounded(column) => {
                self.state = State::Unbounded(column);
                Ok(LpKind::Unbounded)
            }
        }
    }

    /// The status with `cost` in place of the program's cost, from the dictionary that stands: one number for each
    /// structural column, in their order. The last call answered `Optimal` or `Unbounded`, or this solver was `set_to`
    /// or `deepened` from one whose last call did. It takes no memory. After a stop no number may be asked for, and
    /// nothing goes on from there; what is wide may be a stage of the objective's row, which is made as the cost is put
    /// on.
    pub fn resume<L: Ledger>(&mut self, cost: &[i64], ledger: &mut L) -> Result<LpKind, LpStop>
        requires stands { (P : Program) × CanResume P self.old }
        requires cost { IsCostOf N.limit self.old.columns cost.now }
        ensures resumed { (P : Program) → CanResume P self.old → MatchResult result
            (λ kind. HasResumed (with_cost P (at cost.now)) (columns_of self.old.basis) kind self.new)
            (λ stop. HasStoppedFrom N.limit (with_cost P (at cost.now)) (columns_of self.old.basis) stop self.new) }
        ensures caused { (P : Program) → CanResume P self.old → IfErr result
            (λ stop. IsCausedFrom N.limit (with_cost P (at cost.now)) (columns_of self.old.basis) stop self.new) }
        ensures answered { IfOk result (λ kind. HasAnswered kind self.new) }
        ensures resumable { (P : Program) → CanResume P self.old
            → IfOk result (λ kind. CanResume (with_cost P (at cost.now)) self.new) }
        ensures sized { IsSized self.old.dictionary self.new.dictionary }
        ensures counted { CountsOnly L.ops L.wides ledger.old ledger.new }
    {
        match self.dictionary.go_on::<N, L>(cost, ledger) {
            Ok(None) => {
                self.state = State::Optimal;
                Ok(LpKind::Optimal)
            }
            Ok(Some(column)) => {
                self.state = State::Unbounded(column);
                Ok(LpKind::Unbounded)
            }
            Err(halt) => {
                self.state = State::Stopped(Cause::Elsewhere);
                Err(LpStop::Wide(halt.position as u32))
            }
        }
    }

    /// Afterwards this solver stands as the other one does: it is equal to it in all that contracts see. Both were
    /// made of programs of one size. It takes no memory.
    pub fn set_to(&mut self, other: &Work<N, E>)
        requires columns { self.old.columns ≡ other.now.columns }
        requires positions { positions self.old ≡ positions other.now }
        ensures same { self.new ≡ other.now }
    {
        self.state = other.state;
        self.dictionary.copy_from(&other.dictionary);
        self.weights.copy_from(&other.weights);
    }

    /// The limit of its rows: the greatest that their entries allow.
    pub fn limit(&self) -> u128
        ensures limit { result ≡ self.now.limit }
        ensures top { self.now.limit ≡ E.top }
    {
        let _ = &self.state;
        E::TOP
    }

    /// The basic column of a position, counted from 0: structural columns first, then the slack columns, then the
    /// auxiliary one.
    pub fn basis(&self, i: u32) -> u32
        requires inside { i < positions self.now }
        ensures column { result ≡ columns_of self.now.basis i }
    {
        self.dictionary.basic(i as usize) as u32
    }

    /// The number of a structural column in the point of the last basis, which is feasible, and best after `Optimal`.
    pub fn x(&self, j: u32) -> N
        requires point { HasPoint self.now }
        requires inside { j < self.now.columns }
        ensures value { N.value result ≡ point_of self.now j }
    {
        let right = self.dictionary.columns() + self.dictionary.positions() + 2;
        match self.dictionary.position_of(j as usize) {
            Some(i) => self.over_own(right, i),
            None => quotient::<N, E>(E::of(0), E::of(1)),
        }
    }

    /// An entry of the row of position i, in a column of the dictionary, over the row's own entry.
    fn over_own(&self, column: usize, i: usize) -> N
        requires point { HasPoint self.now }
        requires inside { i < positions self.now }
        requires column { column < width_of self.now.dictionary }
        requires fits { Fits N.limit (ratio_of self.now.dictionary i column
            (columns_of self.now.basis i)) }
        ensures value { N.value result ≡ of_pair (rows_of self.now.dictionary i column)
            (nat_abs (rows_of self.now.dictionary i (columns_of self.now.basis i))) }
    {
        let own = self.dictionary.basic(i);
        quotient(
            self.dictionary.entry(i, column),
            self.dictionary.entry(i, own),
        )
    }

    /// Minus such an entry.
    fn minus_over_own(&self, column: usize, i: usize) -> N
        requires point { HasPoint self.now }
        requires inside { i < positions self.now }
        requires column { column < width_of self.now.dictionary }
        requires fits { Fits N.limit (ratio_of self.now.dictionary i column
            (columns_of self.now.basis i)) }
        ensures value { N.value result ≡ of_pair (neg_ℤ (rows_of self.now.dictionary i column))
            (nat_abs (rows_of self.now.dictionary i (columns_of self.now.basis i))) }
    {
        let own = self.dictionary.basic(i);
        quotient(
            self.dictionary.entry(i, column).minus(),
            self.dictionary.entry(i, own),
        )
    }

    /// The dual value of row `i`, at least 0, in units of the objective for one unit of the right side.
    pub fn y(&self, i: u32) -> N
        requires optimum { HasOptimum self.now }
        requires inside { i < positions self.now }
        ensures value { N.value result ≡ dual_of self.now i }
    {
        self.over_objective(self.dictionary.columns() + i as usize)
    }

    /// The value of the point and of the dual values.
    pub fn value(&self) -> N
        requires optimum { HasOptimum self.now }
        ensures value { N.value result ≡ value_of self.now }
    {
        self.over_objective(self.dictionary.columns() + self.dictionary.positions() + 2)
    }

    /// An entry of the objective's row, in a column of the dictionary, over the row's own entry.
    fn over_objective(&self, column: usize) -> N
        requires optimum { HasOptimum self.now }
        requires column { column < width_of self.now.dictionary }
        requires fits { Fits N.limit
            (ratio_of self.now.dictionary (positions self.now) column (objective_column self.now.dictionary)) }
        ensures value { N.value result ≡ of_pair
            (rows_of self.now.dictionary (positions self.now) column)
            (nat_abs (rows_of self.now.dictionary (positions self.now) (suc (self.now.columns + positions self.now)))) }
    {
        let m = self.dictionary.positions();
        let own = self.dictionary.columns() + m + 1;
        quotient(
            self.dictionary.entry(m, column),
            self.dictionary.entry(m, own),
        )
    }

    /// The weight of row `i`, at least 0. Weights have no common divisor.
    pub fn farkas(&self, i: u32) -> i64
        requires weights { HasWeights self.now }
        requires inside { i < positions self.now }
        ensures weight { result ≡ weights_of self.now i }
        ensures within { nat_abs result ≤ N.limit }
    {
        self.weights.get(i as usize).whole().unwrap()
    }

    /// How much a structural column grows along the ray.
    pub fn ray(&self, j: u32) -> N
        requires ray { HasRay self.now }
        requires inside { j < self.now.columns }
        ensures value { N.value result ≡ ray_of self.now j }
    {
        let column = self.growing();
        if j as usize == column {
            return quotient::<N, E>(E::of(1), E::of(1));
        }
        match self.dictionary.position_of(j as usize) {
            Some(i) => self.minus_over_own(column, i),
            None => quotient::<N, E>(E::of(0), E::of(1)),
        }
    }

    /// The column that grows by 1 along the ray.
    pub fn column(&self) -> u32
        requires ray { HasRay self.now }
        ensures column { result ≡ column_of self.now.state }
    {
        self.growing() as u32
    }

    /// What it stopped at.
    pub fn cause(&self) -> Cause
        requires stopped { has_stopped self.now.state }
        ensures cause { self.now.state ≡ Stopped result }
    {
        match self.state {
            State::Stopped(cause) => cause,
            _ => unreachable!(),
        }
    }

    fn growing(&self) -> usize
        ensures column { result ≡ column_of self.now.state }
        ensures few { result < 2 ^ 31 }
        ensures inside { HasRay self.now → result < self.now.columns + positions self.now }
    {
        match self.state {
            State::Unbounded(column) => column,
            _ => 0,
        }
    }
}
