//! A solver of one linear program over rows of either depth.

ghost use Rattle.std.specs.Prelude.{◌≡◌, ◌+◌, ◌^◌, ◌<◌, ◌≤◌, nat_abs, length, IfOk, IfErr, MatchResult};
ghost use Rattle.std.specs.Bool.{OnTrue, OnFalse};
ghost use Rattle.rob_linear.specs.Programs.{Program, with_cost};
ghost use Rattle.rob_linear.specs.Vectors.{at};
ghost use Rattle.rob_rows.specs.LinearPrograms.{HasNumbersWithin, program_of};
ghost use Rattle.rob_number.specs.Counts.{CountsOnly};
ghost use Rattle.rob_simplex.specs.Dictionaries.{columns_of, IsSized};
ghost use Rattle.rob_simplex.specs.Endings.{IsFresh, HasAnswered, HasBegun, HasHalted, HasSolved, HasStopped, IsCaused};
ghost use Rattle.rob_simplex.specs.declared.state.State.TheVariants.{Stopped as At};
ghost use Rattle.rob_simplex.specs.Lowering.{IsCostOf};
ghost use Rattle.rob_simplex.specs.Resuming.{CanResume, HasResumed, HasStoppedFrom, IsCausedFrom};
ghost use Rattle.rob_simplex.specs.Solutions.{point_of, ray_of, dual_of, value_of, weights_of};
ghost use Rattle.rob_simplex.specs.Solvers.{positions, HasPoint, HasOptimum, HasRay, HasWeights, column_of, IsMadeFor, StandsAs, has_stopped};
ghost use Rattle.rob_solver.specs.Depths.{narrow_limit, deep_limit};

use crate::depth::Depth;
use rob_number::{Exact, Ledger, LpKind, Memory};
use rob_rows::Rows;
use rob_simplex::{Cause, LpStop, Work};
use std::alloc::Global;
use std::marker::Model;

/// A solver of one linear program, as `Work` is, over rows of up to 62 bits or of up to 126. What its calls answer says
/// nothing of the depth but by a refusal: rows of the other depth may not refuse.
#[derive(Drop)]
pub struct Solver<N: Exact> {
    depth: Depth<N>,
}

impl<N: Exact> Model for Solver<N> {
    ghost use Rattle.rob_simplex.specs.Solvers.{Solver};
    ghost use Rattle.rob_solver.specs.Depths.{shown};

    ghost Value = { Solver };

    ghost view = { λ s. shown s.depth };
}

impl<N: Exact> Solver<N> {
    // ---- make
    /// Makes a solver of the program over rows of up to 62 bits: all memory that it will ever need.
    pub fn narrow<R: Rows>(alloc: Global, source: &R) -> Result<Solver<N>, Memory>
        requires ready { R.ready source.now }
        requires few { length (R.lp source.now).c + length (R.lp source.now).b < 2 ^ 31 }
        requires numbers { HasNumbersWithin N.limit (R.lp source.now) }
        ensures made { IfOk result (λ solver. IsMadeFor (program_of (R.lp source.now)) solver) }
        ensures limit { IfOk result (λ solver. solver.limit ≡ narrow_limit) }
    {
        let work = Work::new(alloc, source)?;
        let _limit = work.limit();
        Ok(Solver {
            depth: Depth::Narrow(work),
        })
    }

    /// The same over rows of up to 126 bits, which take twice the memory.
    pub fn deep<R: Rows>(alloc: Global, source: &R) -> Result<Solver<N>, Memory>
        requires ready { R.ready source.now }
        requires few { length (R.lp source.now).c + length (R.lp source.now).b < 2 ^ 31 }
        requires numbers { HasNumbersWithin N.limit (R.lp source.now) }
        ensures made { IfOk result (λ solver. IsMadeFor (program_of (R.lp source.now)) solver) }
        ensures limit { IfOk result (λ solver. solver.limit ≡ deep_limit) }
    {
        let work = Work::new(alloc, source)?;
        let _limit = work.limit();
        Ok(Solver {
            depth: Depth::Deep(work),
        })
    }

    /// The same over rows of the other solver's depth.
    pub fn alike<R: Rows>(alloc: Global, source: &R, other: &Solver<N>) -> Result<Solver<N>, Memory>
        requires ready { R.ready source.now }
        requires few { length (R.lp source.now).c + length (R.lp source.now).b < 2 ^ 31 }
        requires numbers { HasNumbersWithin N.limit (R.lp source.now) }
        ensures made { IfOk result (λ solver. IsMadeFor (program_of (R.lp source.now)) solver) }
        ensures limit { IfOk result (λ solver. solver.limit ≡ other.now.limit) }
    {
        if other.is_deep() {
            Solver::deep(alloc, source)
        } else {
            Solver::narrow(alloc, source)
        }
    }

    /// A solver over rows of up to 126 bits that stands as this one does, whose rows have up to 62: in the same state,
    /// at the same basis. Weights are not taken over.
    pub fn deepened(&self, alloc: Global) -> Result<Solver<N>, Memory>
        requires narrow { self.now.limit ≡ narrow_limit }
        requires weightless { HasWeights self.now → ⊥ }
        ensures stands { IfOk result (StandsAs deep_limit self.now) }
    {
        match &self.depth {
            Depth::Narrow(work) => {
                let work = Work::deepened(alloc, work)?;
                Ok(Solver {
                    depth: Depth::Deep(work),
                })
            }
            Depth::Deep(work) => {
                let _limit = work.limit();
                unreachable!()
            }
        }
    }

    /// Whether its rows have up to 126 bits.
    pub fn is_deep(&self) -> bool
        ensures deep { OnTrue result (self.now.limit ≡ deep_limit) }
        ensures narrow { OnFalse result (self.now.limit ≡ narrow_limit) }
    {
        match &self.depth {
            Depth::Narrow(work) => {
                let _limit = work.limit();
                false
            }
            Depth::Deep(work) => {
                let _limit = work.limit();
                true
            }
        }
    }

    // ---- solve
    /// Solves the program, as `Work::solve` does. It is called once. A stop is not counted.
    pub fn solve<L: Ledger>(&mut self, ledger: &mut L) -> Result<LpKind, LpStop>
        requires fresh { IsFresh self.old }
        ensures solved { (P : Program) → IsMadeFor P self.old
            → MatchResult result (λ kind. HasSolved P kind self.new) (λ stop. HasStopped N.limit P stop self.new) }
        ensures caused { (P : Program) → IsMadeFor P self.old
            → IfErr result (λ stop. IsCaused N.limit P stop self.new) }
        ensures halted { (P : Program) → IsMadeFor P self.old
            → IfErr result (λ stop. HasHalted N.limit P stop self.new) }
        ensures answered { IfOk result (λ kind. HasAnswered kind self.new) }
        ensures resumable { (P : Program) → IsMadeFor P self.old
            → IfOk result (λ kind. HasPoint self.new → CanResume P self.new) }
        ensures sized { IsSized self.old.dictionary self.new.dictionary }
        ensures counted { CountsOnly L.ops L.wides ledger.old ledger.new }
    {
        match &mut self.depth {
            Depth::Narrow(work) => work.solve(ledger),
            Depth::Deep(work) => work.solve(ledger),
        }
    }

    /// Goes on where narrow rows, which these took over, stopped at a turn, as `Work::go_on` does. A stop is not
    /// counted.
    pub fn go_on<L: Ledger>(&mut self, ledger: &mut L) -> Result<LpKind, LpStop>
        requires begun { (P : Program) × HasBegun P self.old }
        ensures solved { (P : Program) → HasBegun P self.old
            → MatchResult result (λ kind. HasSolved P kind self.new) (λ stop. HasStopped N.limit P stop self.new) }
        ensures caused { (P : Program) → HasBegun P self.old
            → IfErr result (λ stop. IsCaused N.limit P stop self.new) }
        ensures answered { IfOk result (λ kind. HasAnswered kind self.new) }
        ensures resumable { (P : Program) → HasBegun P self.old
            → IfOk result (λ kind. HasPoint self.new → CanResume P self.new) }
        ensures sized { IsSized self.old.dictionary self.new.dictionary }
        ensures counted { CountsOnly L.ops L.wides ledger.old ledger.new }
    {
        match &mut self.depth {
            Depth::Narrow(work) => work.go_on(ledger),
            Depth::Deep(work) => work.go_on(ledger),
        }
    }

    /// The status with `cost` in place of the program's cost, from the dictionary that stands, as `Work::resume` tells
    /// it. It takes no memory. A stop is not counted.
    pub fn resume<L: Ledger>(&mut self, cost: &[i64], ledger: &mut L) -> Result<LpKind, LpStop>
        requires stands { (P : Program) × CanResume P self.old }
        requires cost { IsCostOf N.limit self.old.columns cost.now }
        ensures resumed { (P : Program) → CanResume P self.old → MatchResult result
            (λ kind. HasResumed (with_cost P (at cost.now)) (columns_of self.old.basis) kind self.new)
            (λ stop. HasStoppedFrom N.limit (with_cost P (at cost.now)) (columns_of self.old.basis) stop self.new) }
        ensures caused { (P : Program) → CanResume P self.old → IfErr result
            (λ stop. IsCausedFrom N.limit (with_cost P (at cost.now)) (columns_of self.old.basis) stop self.new) }
        ensures answered { IfOk result (λ kind. HasAnswered kind self.new) }
        ensures resumable { (P : Program) → CanResume P self.old
            → IfOk result (λ kind. CanResume (with_cost P (at cost.now)) self.new) }
        ensures sized { IsSized self.old.dictionary self.new.dictionary }
        ensures counted { CountsOnly L.ops L.wides ledger.old ledger.new }
    {
        match &mut self.depth {
            Depth::Narrow(work) => work.resume(cost, ledger),
            Depth::Deep(work) => work.resume(cost, ledger),
        }
    }

    /// Afterwards this solver stands as the other one does, which has rows of the same depth and was made of a program
    /// of the same size. It takes no memory.
    pub fn set_to(&mut self, other: &Solver<N>)
        requires limit { self.old.limit ≡ other.now.limit }
        requires columns { self.old.columns ≡ other.now.columns }
        requires positions { positions self.old ≡ positions other.now }
        ensures same { self.new ≡ other.now }
    {
        match &mut self.depth {
            Depth::Narrow(work) => match &other.depth {
                Depth::Narrow(other) => work.set_to(other),
                Depth::Deep(other) => {
                    let _limits = (work.limit(), other.limit());
                    unreachable!()
                }
            },
            Depth::Deep(work) => match &other.depth {
                Depth::Deep(other) => work.set_to(other),
                Depth::Narrow(other) => {
                    let _limits = (work.limit(), other.limit());
                    unreachable!()
                }
            },
        }
    }

    // ---- read
    /// What it stopped at.
    pub fn cause(&self) -> Cause
        requires stopped { has_stopped self.now.state }
        ensures cause { self.now.state ≡ At result }
    {
        match &self.depth {
            Depth::Narrow(work) => work.cause(),
            Depth::Deep(work) => work.cause(),
        }
    }

    /// The basic column of a position, counted from 0: structural columns first, then the slack columns, then the
    /// auxiliary one.
    pub fn basis(&self, i: u32) -> u32
        requires inside { i < positions self.now }
        ensures column { result ≡ columns_of self.now.basis i }
    {
        match &self.depth {
            Depth::Narrow(work) => work.basis(i),
            Depth::Deep(work) => work.basis(i),
        }
    }

    /// The number of a structural column in the point of the last basis, which is feasible, and best after `Optimal`.
    pub fn x(&self, j: u32) -> N
        requires point { HasPoint self.now }
        requires inside { j < self.now.columns }
        ensures value { N.value result ≡ point_of self.now j }
    {
        match &self.depth {
            Depth::Narrow(work) => work.x(j),
            Depth::Deep(work) => work.x(j),
        }
    }

    /// The dual value of row `i`, at least 0, in units of the objective for one unit of the right side.
    pub fn y(&self, i: u32) -> N
        requires optimum { HasOptimum self.now }
        requires inside { i < positions self.now }
        ensures value { N.value result ≡ dual_of self.now i }
    {
        match &self.depth {
            Depth::Narrow(work) => work.y(i),
            Depth::Deep(work) => work.y(i),
        }
    }

    /// The value of the point and of the dual values.
    pub fn value(&self) -> N
        requires optimum { HasOptimum self.now }
        ensures value { N.value result ≡ value_of self.now }
    {
        match &self.depth {
            Depth::Narrow(work) => work.value(),
            Depth::Deep(work) => work.value(),
        }
    }

    /// The weight of row `i`, at least 0. Weights have no common divisor.
    pub fn farkas(&self, i: u32) -> i64
        requires weights { HasWeights self.now }
        requires inside { i < positions self.now }
        ensures weight { result ≡ weights_of self.now i }
        ensures within { nat_abs result ≤ N.limit }
    {
        match &self.depth {
            Depth::Narrow(work) => work.farkas(i),
            Depth::Deep(work) => work.farkas(i),
        }
    }

    /// How much a structural column grows along the ray.
    pub fn ray(&self, j: u32) -> N
        requires ray { HasRay self.now }
        requires inside { j < self.now.columns }
        ensures value { N.value result ≡ ray_of self.now j }
    {
        match &self.depth {
            Depth::Narrow(work) => work.ray(j),
            Depth::Deep(work) => work.ray(j),
        }
    }

    /// The column that grows by 1 along the ray.
    pub fn column(&self) -> u32
        requires ray { HasRay self.now }
        ensures column { result ≡ column_of self.now.state }
    {
        match &self.depth {
            Depth::Narrow(work) => work.column(),
            Depth::Deep(work) => work.column(),
        }
    }
}
