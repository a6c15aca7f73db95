//! The worst scenario of a form at a plan and along a direction.

ghost use Rattle.std.specs.Prelude.{◌≡◌, ◌≤◌, ◌<◌, nat_abs, length, suc, IfOk};
ghost use Rattle.rob_elab.specs.Elaborated.{AreElaborated};
ghost use Rattle.rob_dualize.specs.SetSolving.{IsFewSet, IsSetOfModel};
ghost use Rattle.rob_worst.specs.Finders.{IsFinder};
ghost use Rattle.rob_worst.specs.Finding.{HasConstantWithin};

use crate::answer::Answer;
use crate::whole::Written;
use crate::{given, stops};
use rob_case::Trouble;
use rob_case::numbers::small;
use rob_case::text::keyword;
use rob_cert::{Stop, Worst};
use rob_elab::Forms;
use rob_model::Plan;
use rob_model::copy::copy_list;
use rob_number::{Exact, Tally, Wide};
use rob_worst::slack::slack;
use rob_worst::{Finder, worst, worst_step};
use std::alloc::Global;

/// What is asked of a search: the form, and the plan with its bound or the same numbers as a direction.
#[derive(Drop)]
pub(crate) struct Asked<N> {
    form: u32,
    plan: Plan<N>,
    step: Vec<N>,
    /// Whether it is asked how many operations the searches take, and not what they tell.
    counts: bool,
}

/// The answer of a call on whole numbers: an admitted scenario, or a search.
pub(crate) fn answer<N: Exact>(
    answer: &mut Answer,
    whole: &Written,
    word: &str,
    line: &str,
) -> Result<(), Trouble>
    requires model { AreElaborated N.limit whole.now.forms whole.now.set }
    requires few { IsFewSet whole.now.set }
    requires set { IsSetOfModel N.limit whole.now.set }
{
    if word == "inside" {
        return inside::<N>(answer, whole, &mut Tally::new());
    }
    let asked: Asked<N> = read_asked(answer.alloc, word, line)?;
    asked_by(answer, whole, word, &asked)
}

/// What a line asks of a search.
fn read_asked<N: Exact>(alloc: Global, word: &str, line: &str) -> Result<Asked<N>, Trouble> {
    let (form, numbers) = keyword(line);
    let form = small(form)?;
    let step = given::fractions(alloc, numbers)?;
    let plan = plan(alloc, step.as_slice())?;
    Ok(Asked {
        form,
        plan,
        step,
        counts: word == "counts",
    })
}

/// The plan of some columns and, behind them, their bound.
fn plan<N: Exact>(alloc: Global, numbers: &[N]) -> Result<Plan<N>, Trouble> {
    match numbers {
        [columns @ .., bound] => Ok(Plan {
            columns: copy_list(alloc, columns)?,
            bound: *bound,
        }),
        [] => Err(Trouble::Line),
    }
}

/// The answer of a search by a call of its own, or of those by one finder.
fn asked_by<N: Exact>(
    answer: &mut Answer,
    whole: &Written,
    word: &str,
    asked: &Asked<N>,
) -> Result<(), Trouble>
    requires model { AreElaborated N.limit whole.now.forms whole.now.set }
    requires few { IsFewSet whole.now.set }
    requires set { IsSetOfModel N.limit whole.now.set }
{
    match word {
        "worst" => found(answer, whole, asked, false, &mut Tally::new()),
        "worst-step" => found(answer, whole, asked, true, &mut Tally::new()),
        "counts" | "searches" => by_finder(answer, whole, asked),
        _ => Err(Trouble::Line),
    }
}

/// Goes on where a form and numbers are those of the forms.
fn checked<N: Exact>(forms: &Forms, asked: &Asked<N>) -> Result<(), Trouble>
    ensures form { IfOk result (λ _. asked.now.form < length forms.now.matrices) }
    ensures plan { IfOk result (λ _. length asked.now.plan.columns ≡ forms.now.columns) }
    ensures step { IfOk result (λ _. length asked.now.step.items ≡ suc forms.now.columns) }
{
    let columns = forms.columns as usize;
    if asked.form as usize >= forms.matrices.items().len()
        || asked.plan.columns.items().len() != columns
        || asked.step.len() != columns + 1
    {
        return Err(Trouble::Line);
    }
    Ok(())
}

/// The worst scenario of a form at a plan, or along a direction.
fn found<N: Exact>(
    answer: &mut Answer,
    whole: &Written,
    asked: &Asked<N>,
    by_step: bool,
    ledger: &mut Tally,
) -> Result<(), Trouble>
    requires model { AreElaborated N.limit whole.now.forms whole.now.set }
    requires few { IsFewSet whole.now.set }
{
    let forms = &whole.forms;
    let set = &whole.set;
    checked(forms, asked)?;
    let form = asked.form;
    if by_step {
        let step = asked.step.as_slice();
        told(
            answer,
            worst_step(answer.alloc, forms, set, form, step, ledger),
        )
    } else {
        told(
            answer,
            worst(answer.alloc, forms, set, form, &asked.plan, ledger),
        )
    }
}

/// The answer of a call on one finder, which solves the set once: what it tells in turn, or whether three searches take
/// fewer operations by it than by three calls, each of which solves the set.
fn by_finder<N: Exact>(
    answer: &mut Answer,
    whole: &Written,
    asked: &Asked<N>,
) -> Result<(), Trouble>
    requires model { AreElaborated N.limit whole.now.forms whole.now.set }
    requires few { IsFewSet whole.now.set }
    requires set { IsSetOfModel N.limit whole.now.set }
{
    let mut ledger = Tally::new();
    match Finder::<N>::new(answer.alloc, &whole.set, &mut ledger) {
        Ok(mut finder) => with_finder(answer, &mut finder, whole, asked, &mut ledger),
        Err(stop) => stops::stopped(answer, stop, false),
    }
}

/// The answer of a call on a finder.
fn with_finder<N: Exact>(
    answer: &mut Answer,
    finder: &mut Finder<N>,
    whole: &Written,
    asked: &Asked<N>,
    ledger: &mut Tally,
) -> Result<(), Trouble>
    requires model { AreElaborated N.limit whole.now.forms whole.now.set }
    requires few { IsFewSet whole.now.set }
    requires finder { IsFinder whole.now.set finder.old }
{
    if asked.counts {
        counted(answer, finder, whole, asked, ledger)
    } else {
        found_in_turn(answer, finder, whole, asked)
    }
}

/// An admitted scenario: that of a new finder.
pub(crate) fn inside<N: Exact>(
    answer: &mut Answer,
    whole: &Written,
    ledger: &mut Tally,
) -> Result<(), Trouble>
    requires model { AreElaborated N.limit whole.now.forms whole.now.set }
    requires few { IsFewSet whole.now.set }
    requires set { IsSetOfModel N.limit whole.now.set }
{
    match Finder::<N>::new(answer.alloc, &whole.set, ledger) {
        Ok(finder) => scenario_of(answer, &finder, whole),
        Err(stop) => stops::stopped(answer, stop, false),
    }
}

/// The admitted scenario of a finder.
fn scenario_of<N: Exact>(
    answer: &mut Answer,
    finder: &Finder<N>,
    whole: &Written,
) -> Result<(), Trouble>
    requires model { AreElaborated N.limit whole.now.forms whole.now.set }
    requires few { IsFewSet whole.now.set }
    requires finder { IsFinder whole.now.set finder.now }
{
    let scenario = finder.inside(answer.alloc, &whole.forms)?;
    answer.list("inside", scenario.values.items())
}

/// Whether a finder's three searches, with the operations before them, take fewer than three calls.
fn counted<N: Exact>(
    answer: &mut Answer,
    finder: &mut Finder<N>,
    whole: &Written,
    asked: &Asked<N>,
    ledger: &mut Tally,
) -> Result<(), Trouble>
    requires model { AreElaborated N.limit whole.now.forms whole.now.set }
    requires few { IsFewSet whole.now.set }
    requires finder { IsFinder whole.now.set finder.old }
{
    next(answer, finder, whole, asked, false, ledger)?;
    next(answer, finder, whole, asked, false, ledger)?;
    next(answer, finder, whole, asked, false, ledger)?;
    let mut apart = Tally::new();
    found(answer, whole, asked, false, &mut apart)?;
    found(answer, whole, asked, false, &mut apart)?;
    found(answer, whole, asked, false, &mut apart)?;
    answer.text.clear();
    compared(answer, ledger.ops() < apart.ops())
}

/// The answer that compares two counts of operations.
pub(crate) fn compared(answer: &mut Answer, fewer: bool) -> Result<(), Trouble> {
    answer.say(if fewer { "fewer" } else { "not fewer" })
}

/// What a finder tells at a plan, along a direction, and at the plan again.
fn found_in_turn<N: Exact>(
    answer: &mut Answer,
    finder: &mut Finder<N>,
    whole: &Written,
    asked: &Asked<N>,
) -> Result<(), Trouble>
    requires model { AreElaborated N.limit whole.now.forms whole.now.set }
    requires few { IsFewSet whole.now.set }
    requires finder { IsFinder whole.now.set finder.old }
{
    let mut ledger = Tally::new();
    next(answer, finder, whole, asked, false, &mut ledger)?;
    answer.say(", then ")?;
    next(answer, finder, whole, asked, true, &mut ledger)?;
    answer.say(", then ")?;
    next(answer, finder, whole, asked, false, &mut ledger)
}

/// What a finder tells next, at a plan or along a direction.
fn next<N: Exact>(
    answer: &mut Answer,
    finder: &mut Finder<N>,
    whole: &Written,
    asked: &Asked<N>,
    by_step: bool,
    ledger: &mut Tally,
) -> Result<(), Trouble>
    requires model { AreElaborated N.limit whole.now.forms whole.now.set }
    requires few { IsFewSet whole.now.set }
    requires finder { IsFinder whole.now.set finder.old }
    ensures finder { IsFinder whole.now.set finder.new }
{
    let forms = &whole.forms;
    let set = &whole.set;
    checked(forms, asked)?;
    let form = asked.form;
    if by_step {
        let step = asked.step.as_slice();
        told(
            answer,
            finder.at_step(answer.alloc, forms, set, form, step, ledger),
        )
    } else {
        told(
            answer,
            finder.at_plan(answer.alloc, forms, set, form, &asked.plan, ledger),
        )
    }
}

/// What a search tells, or why it tells nothing. It has that, and lends it.
fn told<N: Exact>(answer: &mut Answer, found: Result<Worst<N>, Stop>) -> Result<(), Trouble>
    requires within { IfOk found (HasConstantWithin N.limit) }
{
    told_of(answer, &found)
}

/// What is told of a search.
fn told_of<N: Exact>(answer: &mut Answer, found: &Result<Worst<N>, Stop>) -> Result<(), Trouble>
    requires within { IfOk found.now (HasConstantWithin N.limit) }
{
    match found {
        Ok(
            Worst::At {
                scale,
                peak,
                constant,
                scenario,
                amounts,
                ..
            },
        ) => {
            answer.number("", *scale)?;
            answer.number(" times ", *peak)?;
            answer.tell(" and ", constant)?;
            answer.list(" at", scenario.values.items())?;
            answer.list(" by", amounts.items())?;
            put_slack(answer, *scale, *peak, *constant)
        }
        Ok(Worst::Along { ray, .. }) => answer.list("along", ray.items()),
        Err(stop) => stops::told(answer, stop, false),
    }
}

/// Appends the slack that a search shows.
fn put_slack<N: Exact>(answer: &mut Answer, scale: N, peak: N, constant: i64) -> Result<(), Trouble>
    requires constant { nat_abs constant ≤ N.limit }
{
    if scale.sign() == 0 {
        return Err(Trouble::Line);
    }
    match slack(scale, peak, constant, &mut Tally::new()) {
        Ok(slack) => answer.number(" slack ", slack),
        Err(Wide) => answer.say(" slack wide"),
    }
}
