//! A round: the master is solved, its direction and its plan are tried, and a cut or the end follows.

ghost use Rattle.std.specs.Prelude.{◌≡◌, ◌≤◌, ◌<◌, ◌^◌, false, nat_abs, length, IfOk, IfErr, MatchResult};
ghost use Rattle.rob_algebra.specs.Fraction.{of_int};
ghost use Rattle.rob_elab.specs.Elaborated.{AreElaborated};
ghost use Rattle.rob_meaning.specs.Places.{Each};
ghost use Rattle.rob_model.specs.declared.place.Spot.TheVariants.{Clearing};
ghost use Rattle.rob_model.specs.declared.place.Where.TheVariants as of;
ghost use Rattle.rob_number.specs.Counts.{NeverFell};
ghost use Rattle.rob_number.specs.declared.lp_kind.LpKind.TheVariants as kinds;
ghost use Rattle.rob_rows.specs.LinearPrograms.{program_of, IsShaped, HasNumbersWithin};
ghost use Rattle.rob_runs.specs.Runs.{best as with_best, boundless as without_best};
ghost use Rattle.rob_sets.specs.declared.set_form.SetForm.{SetForm as SetRows};
ghost use Rattle.rob_simplex.specs.Solvers.{positions, column_of, HasOptimum, HasRay, HasWeights};
ghost use Rattle.rob_simplex.specs.Solutions.{dual_of, weights_of};
ghost use Rattle.rob_solver.specs.Solving.{IsSolved, IsStopped, IsCausedDeep, CountsSolving};
ghost use Rattle.rob_dualize.specs.Ending.{infeasible_with};
ghost use Rattle.rob_dualize.specs.Solving.{CountsAnswer};
ghost use Rattle.rob_dualize.specs.SetSolving.{IsFewSet};
ghost use Rattle.rob_worst.specs.Finders.{IsFinder};
ghost use Rattle.rob_cuts.specs.Certificates.{optimal_with, items_told};
ghost use Rattle.rob_cuts.specs.Covered.{covered_plan};
ghost use Rattle.rob_cuts.specs.Made.{cut_made};
ghost use Rattle.rob_cuts.specs.Rounds.{round_told, RoundFits};
ghost use Rattle.rob_cuts.specs.Runs.{IsRunSoFar};
ghost use Rattle.rob_cuts.specs.Solving.{FitsRoute};
ghost use Rattle.rob_cuts.specs.Stops.{IsRefused, HasFewRows};
ghost use Rattle.rob_cuts.specs.Outcomes.{EndsMaster, LeadsOn, IsEndWith};
ghost use Rattle.rob_cuts.specs.declared.round.Outcome.TheVariants as Leads;

use crate::certificate::{infeasible, optimal, unbounded};
use crate::cut::Cut;
use crate::kept::Covered;
use crate::look::{PlanLook, StepLook, look_at_plan, look_at_step};
use crate::run::Run;
use crate::step::whole_step;
use rob_cert::{Cert, Round, Stop};
use rob_dualize::Elaborated;
use rob_dualize::numbers::basis;
use rob_dualize::stop::{or_stop, position, wide, wide_at};
use rob_elab::Forms;
use rob_model::{Program, Spot, Where};
use rob_number::{Exact, Ledger, LpKind, Memory};
use rob_rows::Lp;
use rob_sets::error::Stop as Refusal;
use rob_solver::{Solved, Solver, Stopped, solve};
use rob_worst::Finder;
use rob_worst::refusal::count;
use std::alloc::Global;

/// What a round leads to.
#[derive(Debug, Drop)]
pub enum Outcome<N> {
    /// A further round, with its cut.
    Cut(Round),
    /// The end of the run.
    End(Cert<N>),
}

/// The next round.
pub fn next_round<N: Exact, L: Ledger>(
    alloc: Global,
    model: Elaborated,
    finder: &mut Finder<N>,
    run: &Run,
    ledger: &mut L,
) -> Result<Outcome<N>, Stop>
    requires model { FitsRoute N.limit model }
    requires finder { IsFinder model.set.now finder.old }
    requires run { IsRunSoFar N.limit model.forms.now model.set.now run.now }
    ensures outcome { LeadsOn N.value N.limit model.entry run.now.rounds result }
    ensures finder { IsFinder model.entry.set.now finder.new }
    ensures wides { CountsAnswer (L.wides ledger.old) (L.wides ledger.new) result }
    ensures counted { NeverFell L.ops L.wides ledger.old ledger.new }
{
    let solved = match solve_master::<N, L>(alloc, &run.master, ledger) {
        Ok(solved) => solved,
        Err(Stopped::Wide(solver, stop)) => {
            let rows = run.rounds.items().len() as u32;
            return Err(wide(alloc, &solver, Program::Master, rows, position(stop)));
        }
        Err(Stopped::Memory) => return Err(Stop::Memory),
    };
    let solver = &solved.solver;
    match solved.kind {
        LpKind::Optimal => best(alloc, model, finder, run, solver, ledger),
        LpKind::Infeasible => or_stop(without_plan(alloc, model.forms, finder, run, solver)),
        LpKind::Unbounded => boundless(alloc, model, finder, run, solver, ledger),
    }
}

/// Solves the master. Memory is refused where the master's rows and columns together reach 2^31.
fn solve_master<N: Exact, L: Ledger>(
    alloc: Global,
    master: &Lp,
    ledger: &mut L,
) -> Result<Solved<N>, Stopped<N>>
    requires shaped { IsShaped master.now }
    requires within { HasNumbersWithin N.limit master.now }
    ensures solved { IfOk result (IsSolved (program_of master.now)) }
    ensures few { MatchResult result (λ solved. positions solved.solver < 2 ^ 31) HasFewRows }
    ensures stopped { IfErr result (IsStopped N.limit (program_of master.now)) }
    ensures caused { IfErr result (IsCausedDeep N.limit (program_of master.now)) }
    ensures counted { CountsSolving L.ops L.wides ledger.old ledger.new result }
{
    if master.c.items().len() + master.b.items().len() >= 1 << 31 {
        return Err(Stopped::Memory);
    }
    solve(alloc, master, ledger)
}

/// The master has a best plan: that is cut off, or is the optimum.
fn best<N: Exact, L: Ledger>(
    alloc: Global,
    model: Elaborated,
    finder: &mut Finder<N>,
    run: &Run,
    solver: &Solver<N>,
    ledger: &mut L,
) -> Result<Outcome<N>, Stop>
    requires model { FitsRoute N.limit model }
    requires finder { IsFinder model.set.now finder.old }
    requires run { IsRunSoFar N.limit model.forms.now model.set.now run.now }
    requires ended { EndsMaster run.now.master kinds.Optimal solver.now }
    ensures outcome { LeadsOn N.value N.limit model.entry run.now.rounds result }
    ensures finder { IsFinder model.entry.set.now finder.new }
    ensures wides { CountsAnswer (L.wides ledger.old) (L.wides ledger.new) result }
    ensures counted { NeverFell L.ops L.wides ledger.old ledger.new }
{
    match look_at_plan(alloc, model, finder, solver, ledger) {
        Ok(PlanLook::Broken(cut)) => or_stop(best_round(alloc, run, solver, cut)),
        Ok(PlanLook::Kept(plan, kept)) => {
            let best = Covered { plan, kept };
            or_stop(optimum(alloc, model.forms, finder, run, solver, best))
        }
        Err(stop) => Err(stop),
    }
}

/// The master has no best plan: its direction is cut off, or its plan is, or the model is unbounded.
fn boundless<N: Exact, L: Ledger>(
    alloc: Global,
    model: Elaborated,
    finder: &mut Finder<N>,
    run: &Run,
    solver: &Solver<N>,
    ledger: &mut L,
) -> Result<Outcome<N>, Stop>
    requires model { FitsRoute N.limit model }
    requires finder { IsFinder model.set.now finder.old }
    requires run { IsRunSoFar N.limit model.forms.now model.set.now run.now }
    requires ended { EndsMaster run.now.master kinds.Unbounded solver.now }
    ensures outcome { LeadsOn N.value N.limit model.entry run.now.rounds result }
    ensures finder { IsFinder model.entry.set.now finder.new }
    ensures wides { CountsAnswer (L.wides ledger.old) (L.wides ledger.new) result }
    ensures counted { NeverFell L.ops L.wides ledger.old ledger.new }
{
    let (step, held) = match look_at_step(alloc, model, finder, solver, ledger) {
        Ok(StepLook::Broken(cut)) => return or_stop(boundless_round(alloc, run, solver, true, cut)),
        Ok(StepLook::Kept(step, held)) => (step, held),
        Err(stop) => return Err(stop),
    };
    let (plan, kept) = match look_at_plan(alloc, model, finder, solver, ledger) {
        Ok(PlanLook::Broken(cut)) => return or_stop(boundless_round(
            alloc, run, solver, false, cut,
        )),
        Ok(PlanLook::Kept(plan, kept)) => (plan, kept),
        Err(stop) => return Err(stop),
    };
    let step = match whole_step(alloc, step.items(), held.scale, model.forms.columns) {
        Ok(step) => step,
        Err(refusal) => {
            let stop = unclear(alloc, refusal);
            count(&stop, ledger);
            return Err(stop);
        }
    };
    let inside = finder.inside(alloc, model.forms)?;
    Ok(Outcome::End(unbounded(alloc, plan, kept, step, held, inside)))
}

/// The stop where a cleared number of the direction is wide, or memory was refused.
fn unclear(alloc: Global, refusal: Refusal) -> Stop
    ensures stop { IsRefused (Clearing of.Move) refusal result }
{
    match refusal {
        Refusal::Wide => wide_at(alloc, Spot::Clearing(Where::Move)),
        Refusal::Memory => Stop::Memory,
    }
}

/// The optimum.
fn optimum<N: Exact>(
    alloc: Global,
    forms: &Forms,
    finder: &Finder<N>,
    run: &Run,
    solver: &Solver<N>,
    best: Covered<N>,
) -> Result<Outcome<N>, Memory>
    requires few { length forms.now.matrices < 2 ^ 32 }
    requires finder { (set : SetRows) × AreElaborated N.limit forms.now set × IsFewSet set
        × IsFinder set finder.now }
    requires optimum { HasOptimum solver.now }
    requires rows { length run.now.rounds ≡ positions solver.now }
    requires few_rows { positions solver.now < 2 ^ 31 }
    requires fits { Each (RoundFits N.limit) run.now.rounds }
    ensures end { IfOk result (λ outcome. IsEndWith N.value forms.now finder.now
        (λ inside. optimal_with inside (covered_plan N.value best.plan best.kept)
        (items_told (length forms.now.matrices) run.now.rounds (dual_of solver.now))) outcome) }
{
    let inside = finder.inside(alloc, forms)?;
    let count = forms.matrices.items().len() as u32;
    let cert = optimal(alloc, count, run.rounds.items(), solver, best, inside)?;
    Ok(Outcome::End(cert))
}

/// No plan keeps the cuts: the model is infeasible.
fn without_plan<N: Exact>(
    alloc: Global,
    forms: &Forms,
    finder: &Finder<N>,
    run: &Run,
    solver: &Solver<N>,
) -> Result<Outcome<N>, Memory>
    requires few { length forms.now.matrices < 2 ^ 32 }
    requires finder { (set : SetRows) × AreElaborated N.limit forms.now set × IsFewSet set
        × IsFinder set finder.now }
    requires weights { HasWeights solver.now }
    requires rows { length run.now.rounds ≡ positions solver.now }
    requires few_rows { positions solver.now < 2 ^ 31 }
    requires fits { Each (RoundFits N.limit) run.now.rounds }
    ensures end { IfOk result (λ outcome. IsEndWith N.value forms.now finder.now
        (λ inside. infeasible_with inside
        (items_told (length forms.now.matrices) run.now.rounds
        (λ q. of_int (weights_of solver.now q)))) outcome) }
{
    let inside = finder.inside(alloc, forms)?;
    let count = forms.matrices.items().len() as u32;
    let cert = infeasible(alloc, count, run.rounds.items(), solver, inside)?;
    Ok(Outcome::End(cert))
}

/// The round that cuts off a best plan.
fn best_round<N: Exact>(
    alloc: Global,
    run: &Run,
    solver: &Solver<N>,
    cut: Cut,
) -> Result<Outcome<N>, Memory>
    requires rows { length run.now.rounds ≡ positions solver.now }
    requires few { positions solver.now < 2 ^ 31 }
    requires within { nat_abs cut.base ≤ N.limit }
    ensures round { IfOk result (λ outcome. outcome ≡ Leads.Cut (round_told (record {
      kind = with_best;
      by_step = false;
      basis = solver.now.basis;
      cut = cut_made cut;
    }))) }
{
    let basis = basis(alloc, solver, run.rounds.items().len() as u32)?;
    Ok(Outcome::Cut(Round {
        kind: LpKind::Optimal,
        by_step: false,
        basis,
        column: None,
        form: cut.form,
        base: cut.base,
        vector: cut.vector,
    }))
}

/// The round that cuts off the direction of a master without a best plan, or its plan.
fn boundless_round<N: Exact>(
    alloc: Global,
    run: &Run,
    solver: &Solver<N>,
    by_step: bool,
    cut: Cut,
) -> Result<Outcome<N>, Memory>
    requires ray { HasRay solver.now }
    requires rows { length run.now.rounds ≡ positions solver.now }
    requires few { positions solver.now < 2 ^ 31 }
    requires within { nat_abs cut.base ≤ N.limit }
    ensures round { IfOk result (λ outcome. outcome
        ≡ Leads.Cut (round_told (record {
          kind = without_best (column_of solver.now.state);
          by_step = by_step;
          basis = solver.now.basis;
          cut = cut_made cut;
        }))) }
{
    let basis = basis(alloc, solver, run.rounds.items().len() as u32)?;
    Ok(Outcome::Cut(Round {
        kind: LpKind::Unbounded,
        by_step,
        basis,
        column: Some(solver.column()),
        form: cut.form,
        base: cut.base,
        vector: cut.vector,
    }))
}
