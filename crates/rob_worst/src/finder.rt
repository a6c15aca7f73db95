//! Searches on one solved program of the set.

ghost use Rattle.std.specs.Prelude.{◌≡◌, ◌<◌, suc, ℕ, Bool, true, false, List, length, IfOk, MatchResult};
ghost use Rattle.rob_algebra.specs.Fraction.{Fraction};
ghost use Rattle.rob_meaning.specs.Forms.{matrices, form_columns};
ghost use Rattle.rob_meaning.specs.RobustModel.{RobustModel};
ghost use Rattle.rob_meaning.specs.UncertaintySet.{Admits};
ghost use Rattle.rob_meaning.specs.WellFormed.{IsModel};
ghost use Rattle.rob_model.specs.View.{scenario_of};
ghost use Rattle.rob_number.specs.Counts.{NeverFell};
ghost use Rattle.rob_sets.specs.SetForm.{IsSetForm};
ghost use Rattle.rob_sets.specs.declared.set_form.SetForm.{SetForm as SetRows};
ghost use Rattle.rob_elab.specs.Elaborated.{AreElaborated};
ghost use Rattle.rob_elab.specs.Forms.{IsForms};
ghost use Rattle.rob_dualize.specs.Solving.{CountsAnswer, HasScenario, IsLastScenario};
ghost use Rattle.rob_dualize.specs.SetSolving.{IsSetOfModel, IsFewSet};
ghost use Rattle.rob_worst.specs.Finders.{FitsSearch, IsFinder};
ghost use Rattle.rob_dualize.specs.SetSolving.{HasSetCause};
ghost use Rattle.rob_dualize.specs.Wholes.{HoldsOfEach};
ghost use Rattle.rob_worst.specs.Finding.{HasConstantWithin, HasSearchCause, Searches};
ghost use Rattle.rob_worst.specs.Tasks.{FitsSet, IsTaskOf};
ghost use Rattle.rob_worst.specs.Vectors.{plan_of, step_of};

use crate::refusal::count;
use crate::searching::{Stopped, go_deeper, go_on};
use crate::task::{Task, plan_task, step_task};
use rob_cert::{Stop, Worst};
use rob_dualize::Elaborated;
use rob_dualize::set_program::{alike_set, parameters, solved_set};
use rob_elab::Forms;
use rob_model::{Plan, Scenario};
use rob_number::{Exact, Ledger, Memory};
use rob_sets::SetForm;
use rob_solver::Solver;
use std::alloc::Global;

/// Finds worst scenarios over one uncertainty set. The set's program is solved once; each search goes on from there
/// with its own cost, so that what it finds doesn't depend on the searches before it. (The pessimisation problem of
/// robust optimisation.)
pub struct Finder<N: Exact> {
    /// Stands at the last basis of the set's program.
    solved: Solver<N>,
    /// Is set to it, and goes on.
    search: Solver<N>,
}

impl<N: Exact> Drop for Finder<N> {
    /// Lets go of it in one call. A derived drop would stand in each function that does.
    fn drop(self) {
        let Finder {
            solved: _solved,
            search: _search,
        } = self;
    }
}

impl<N: Exact> Finder<N> {
    /// Solves the set's program. `EmptySet` comes only where no scenario is admitted, with the weights of the set rows
    /// that show it; `Wide` only where a row of a basis on the program's path has a number over the limit, for which
    /// the program is refused; `Memory` where memory is refused.
    pub fn new<L: Ledger>(alloc: Global, set: &SetForm, ledger: &mut L) -> Result<Finder<N>, Stop>
        requires model { IsSetOfModel N.limit set.now }
        requires few { IsFewSet set.now }
        ensures finder { IfOk result (λ finder. IsFinder set.now finder) }
        ensures answer { (m : RobustModel) → IsModel m → IsSetForm m set.now
            → MatchResult result (λ _. HasScenario m) (HasSetCause N.limit m) }
        ensures wides { CountsAnswer (L.wides ledger.old) (L.wides ledger.new) result }
        ensures counted { NeverFell L.ops L.wides ledger.old ledger.new }
    {
        let solved = solved_set::<N, L>(alloc, set, ledger)?;
        let search = alike_set(alloc, set, &solved)?;
        Ok(Finder { solved, search })
    }

    /// The worst scenario of a form at a plan with its bound. `Wide` comes only where a number on the way is over the
    /// limit: the plan's least common denominator or a number of the plan times it, a prefix of a sum that makes the
    /// search's costs, or a number of a row on the search's path for which the search is refused. `form` counts from 0,
    /// and the plan has a number for each decision column; `forms` and `set` are those of one model, the set that of
    /// `new`. `Memory` comes where memory is refused, `EmptySet` never; after each answer the finder can search again.
    pub fn at_plan<L: Ledger>(
        &mut self,
        alloc: Global,
        forms: &Forms,
        set: &SetForm,
        form: u32,
        plan: &Plan<N>,
        ledger: &mut L,
    ) -> Result<Worst<N>, Stop>
        requires model { FitsSearch N.limit forms.now set.now }
        requires finder { IsFinder set.now self.old }
        requires form_in { form < length forms.now.matrices }
        requires size { length plan.now.columns ≡ forms.now.columns }
        ensures answer { HoldsOfEach forms.now set.now
            (λ m. Searches N.value N.limit m false form (plan_of N.value plan.now)
            (L.wides ledger.old) (L.wides ledger.new) result) }
        ensures within { IfOk result (HasConstantWithin N.limit) }
        ensures finder { IsFinder set.now self.new }
        ensures counted { NeverFell L.ops L.wides ledger.old ledger.new }
    {
        let task = plan_task(alloc, Elaborated { forms, set }, form, plan);
        self.search(alloc, set, task, ledger)
    }

    /// The same along a direction: a number for each decision column, and last the one for the bound. The constant
    /// column counts 0.
    pub fn at_step<L: Ledger>(
        &mut self,
        alloc: Global,
        forms: &Forms,
        set: &SetForm,
        form: u32,
        step: &[N],
        ledger: &mut L,
    ) -> Result<Worst<N>, Stop>
        requires model { FitsSearch N.limit forms.now set.now }
        requires finder { IsFinder set.now self.old }
        requires form_in { form < length forms.now.matrices }
        requires size { length step.now ≡ suc forms.now.columns }
        ensures answer { HoldsOfEach forms.now set.now
            (λ m. Searches N.value N.limit m true form (step_of N.value step.now)
            (L.wides ledger.old) (L.wides ledger.new) result) }
        ensures within { IfOk result (HasConstantWithin N.limit) }
        ensures finder { IsFinder set.now self.new }
        ensures counted { NeverFell L.ops L.wides ledger.old ledger.new }
    {
        let task = step_task(alloc, Elaborated { forms, set }, form, step);
        self.search(alloc, set, task, ledger)
    }

    /// The search: from the set's last basis, with the task's cost. Of rows only deep ones refuse it.
    fn search<L: Ledger>(
        &mut self,
        alloc: Global,
        set: &SetForm,
        task: Result<Task, Stop>,
        ledger: &mut L,
    ) -> Result<Worst<N>, Stop>
        requires model { IsSetOfModel N.limit set.now }
        requires few { IsFewSet set.now }
        requires finder { IsFinder set.now self.old }
        requires task { IfOk task (λ task. FitsSet N.limit set.now.columns task) }
        ensures answer { (m : RobustModel) → IsModel m → IsSetForm m set.now
            → (step : Bool) (i : ℕ) → i < length (matrices m) → (z : List Fraction)
            → length z ≡ form_columns m
            → MatchResult task (IsTaskOf m step i z) (HasSearchCause N.limit m step i z)
            → Searches N.value N.limit m step i z (L.wides ledger.old) (L.wides ledger.new) result }
        ensures within { IfOk result (HasConstantWithin N.limit) }
        ensures finder { IsFinder set.now self.new }
        ensures counted { NeverFell L.ops L.wides ledger.old ledger.new }
    {
        let task = match task {
            Ok(task) => task,
            Err(stop) => {
                count(&stop, ledger);
                return Err(stop);
            }
        };
        self.search.set_to(&self.solved);
        match go_on(alloc, set, &task, &mut self.search, ledger) {
            Ok(Ok(worst)) => Ok(worst),
            Ok(Err(stop)) => {
                let solver = &self.search;
                go_deeper(
                    alloc,
                    set,
                    &task,
                    &self.solved,
                    Stopped { solver, stop },
                    ledger,
                )
            }
            Err(Memory) => Err(Stop::Memory),
        }
    }

    /// An admitted scenario: the parameters of the basic solution of the last basis of the set's program.
    pub fn inside(&self, alloc: Global, forms: &Forms) -> Result<Scenario<N>, Memory>
        requires finder { (set : SetRows) × AreElaborated N.limit forms.now set × IsFewSet set
            × IsFinder set self.now }
        ensures scenario { IfOk result (λ scenario. (m : RobustModel) (set : SetRows) → IsModel m
            → IsForms m forms.now → IsSetForm m set → IsFinder set self.now
            → Admits m (scenario_of N.value scenario)
            × IsLastScenario m (scenario_of N.value scenario)) }
    {
        let values = parameters(alloc, &self.solved, forms.params)?;
        Ok(Scenario { values })
    }
}
