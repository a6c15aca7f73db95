//! The forms in order at the master's plan or direction: the first that is broken there, or what covers them all.

ghost use Rattle.std.specs.Prelude.{◌≡◌, ◌<◌, List, length, IfOk, MatchResult};
ghost use Rattle.rob_meaning.specs.Forms.{form_columns, matrices};
ghost use Rattle.rob_meaning.specs.RobustModel.{RobustModel};
ghost use Rattle.rob_algebra.specs.Fraction.{Fraction};
ghost use Rattle.rob_meaning.specs.WellFormed.{IsModel};
ghost use Rattle.rob_number.specs.Counts.{NeverFell};
ghost use Rattle.rob_dualize.specs.Solving.{CountsAnswer};
ghost use Rattle.rob_dualize.specs.Wholes.{HoldsOfEach};
ghost use Rattle.rob_worst.specs.Finders.{IsFinder};
ghost use Rattle.rob_worst.specs.Finding.{HasConstantWithin, Tells, Searches};
ghost use Rattle.rob_cuts.specs.Solving.{FitsRoute};
ghost use Rattle.rob_cuts.specs.Scans.{vector_of, by_step_of, FitsTarget, TellsFew, verdict_of, IsJudged, IsStoppedAt, IsScanned, IsScanStopped};

use crate::cut::{Cut, ray_cut, scenario_cut};
use crate::items::append_covers;
use crate::kept::{Kept, is_kept};
use rob_cert::{Cover, Stop, Worst};
use rob_dualize::Elaborated;
use rob_dualize::numbers::whole;
use rob_model::Plan;
use rob_number::{Exact, Ledger, List, Memory};
use rob_worst::Finder;
use rob_worst::refusal::count;
use std::alloc::Global;

/// What is looked at: a plan with its bound, or a direction, whose last number is that of the bound.
#[derive(Clone, Copy, Drop)]
pub enum Target<'a, N> {
    Plan(&'a Plan<N>),
    Step(&'a [N]),
}

/// What the scan finds.
#[derive(Debug, Drop)]
pub enum Scan<N> {
    /// The first form that is broken, at its worst case.
    Broken(Cut),
    /// No form is broken.
    Kept(Kept<N>),
}

/// What a worst case says of its form.
#[derive(Debug, Drop)]
enum Verdict<N> {
    Broken(Cut),
    /// It is kept, with this scale.
    Kept(N),
}

/// Tries the forms in order.
pub fn scan_forms<N: Exact, L: Ledger>(
    alloc: Global,
    model: Elaborated,
    finder: &mut Finder<N>,
    target: Target<N>,
    ledger: &mut L,
) -> Result<Scan<N>, Stop>
    requires model { FitsRoute N.limit model }
    requires finder { IsFinder model.set.now finder.old }
    requires target { FitsTarget model.forms.now.columns target }
    ensures scanned { HoldsOfEach model.entry.forms.now model.entry.set.now
        (λ m. MatchResult result (IsScanned N.limit m N.value (vector_of N.value target.entry))
        (IsScanStopped N.limit m (by_step_of target.entry) (vector_of N.value target.entry))) }
    ensures finder { IsFinder model.entry.set.now finder.new }
    ensures wides { CountsAnswer (L.wides ledger.old) (L.wides ledger.new) result }
    ensures counted { NeverFell L.ops L.wides ledger.old ledger.new }
{
    let forms = model.forms.matrices.items().len() as u32;
    let mut scale = whole(1);
    let mut covers = List::new(alloc);
    for form in 0..forms {
        let worst = match search(alloc, model, finder, form, target, ledger) {
            Ok(worst) => worst,
            Err(stop) => return Err(stop),
        };
        match judge(alloc, form, worst, &mut covers) {
            Ok(Verdict::Kept(common)) => scale = common,
            Ok(Verdict::Broken(cut)) => return Ok(Scan::Broken(cut)),
            Err(stop) => {
                count(&stop, ledger);
                return Err(stop);
            }
        }
    }
    Ok(Scan::Kept(Kept { scale, covers }))
}

/// The worst case of a form.
fn search<N: Exact, L: Ledger>(
    alloc: Global,
    model: Elaborated,
    finder: &mut Finder<N>,
    form: u32,
    target: Target<N>,
    ledger: &mut L,
) -> Result<Worst<N>, Stop>
    requires model { FitsRoute N.limit model }
    requires finder { IsFinder model.set.now finder.old }
    requires form_in { form < length model.forms.now.matrices }
    requires target { FitsTarget model.forms.now.columns target }
    ensures answer { HoldsOfEach model.entry.forms.now model.entry.set.now
        (λ m. Searches N.value N.limit m (by_step_of target.entry) form
        (vector_of N.value target.entry) (L.wides ledger.old) (L.wides ledger.new) result) }
    ensures within { IfOk result (HasConstantWithin N.limit) }
    ensures finder { IsFinder model.entry.set.now finder.new }
    ensures counted { NeverFell L.ops L.wides ledger.old ledger.new }
{
    match target {
        Target::Plan(plan) => finder.at_plan(alloc, model.forms, model.set, form, plan, ledger),
        Target::Step(step) => finder.at_step(alloc, model.forms, model.set, form, step, ledger),
    }
}

/// Judges a form by its worst case. Where it is kept, its covers are appended.
fn judge<N: Exact>(
    alloc: Global,
    form: u32,
    worst: Worst<N>,
    covers: &mut List<Cover<N>>,
) -> Result<Verdict<N>, Stop>
    requires amounts { TellsFew worst }
    requires constant { HasConstantWithin N.limit worst }
    ensures judged { (m : RobustModel) → IsModel m → form < length (matrices m)
        → (z : List Fraction) → length z ≡ form_columns m → Tells N.value m form z worst
        → MatchResult result (IsJudged N.limit m N.value form z covers.old covers.new)
        (IsStoppedAt N.limit m form z) }
{
    match worst {
        Worst::At {
            scale,
            peak,
            constant,
            scenario,
            amounts,
            ..
        } => {
            if !is_kept(peak, constant) {
                return broken(scenario_cut(alloc, form, scenario.values.items()));
            }
            match append_covers(form, amounts.items(), covers) {
                Ok(()) => Ok(Verdict::Kept(scale)),
                Err(Memory) => Err(Stop::Memory),
            }
        }
        Worst::Along { ray, .. } => broken(ray_cut(alloc, form, ray.items())),
    }
}

/// The verdict of a cut.
fn broken<N>(cut: Result<Cut, Stop>) -> Result<Verdict<N>, Stop>
    ensures verdict { result ≡ verdict_of cut }
{
    match cut {
        Ok(cut) => Ok(Verdict::Broken(cut)),
        Err(stop) => Err(stop),
    }
}
