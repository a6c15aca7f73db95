//! The conditions of a certificate, in order, by what it claims.

ghost use Rattle.std.specs.Prelude.{◌≡◌, length};
ghost use Rattle.rob_cert.specs.View.{certificate_of};
ghost use Rattle.rob_check.specs.Conditions.{base_tests, conditions_as, covering_tests, improves, move_tests, optimum_tests, plan_covering, ray_tests, step_covering, verdict_of};
ghost use Rattle.rob_check.specs.Verdicts.{Counted, verdict};
ghost use Rattle.rob_check.specs.View.{IsGiven};
ghost use Rattle.rob_meaning.specs.Certificates.{infeasible, optimal, unbounded};
ghost use Rattle.rob_model.specs.View.{robust, sense_of};

use crate::columns::check_sums;
use crate::covering::{Covered, Covering};
use crate::covers::check_covers;
use crate::given::Given;
use crate::items::check_items;
use crate::scenario::{Taken, check_vector};
use crate::sums::{is_nonnegative, is_positive};
use crate::verdict::Verdict;
use rob_cert::Status;
use rob_model::numbers::{one, zero};
use rob_model::{Place, Sense};
use rob_number::{Exact, Ledger};

/// The verdict on the scenario `inside`, then on the items.
fn check_base<N: Exact, L: Ledger>(given: Given<'_, N>, ledger: &mut L) -> Verdict
    requires given { IsGiven N.value N.limit given }
    ensures exact { result ≡ verdict (base_tests N.limit (robust N.value given.entry.model.now)
        (certificate_of N.value given.entry.cert.now)) }
    ensures counted { Counted L.ops L.wides ledger.old ledger.new result }
{
    let once: N = one(ledger);
    match check_vector(
        Taken::Inside,
        given.model,
        once,
        given.cert.inside.values.items(),
        ledger,
    ) {
        Verdict::Accepted => check_items(given.model, given.cert.items.items(), ledger),
        flaw => flaw,
    }
}

/// The verdict on the covers of the plan.
fn check_plan<N: Exact, L: Ledger>(given: Given<'_, N>, ledger: &mut L) -> Verdict
    requires given { IsGiven N.value N.limit given }
    requires columns { length given.cert.now.plan ≡ given.forms.now.columns }
    ensures exact { result ≡ verdict (covering_tests N.limit (robust N.value given.entry.model.now)
        (plan_covering (certificate_of N.value given.entry.cert.now))) }
    ensures counted { Counted L.ops L.wides ledger.old ledger.new result }
{
    let first: N = one(ledger);
    let covering = Covering {
        covered: Covered::Plan,
        scale: given.cert.scale,
        first,
        columns: given.cert.plan.items(),
        bound: given.cert.value,
        covers: given.cert.covers.items(),
    };
    check_covers(given.forms, given.set, &covering, ledger)
}

/// The verdict on the covers of the direction.
fn check_step<N: Exact, L: Ledger>(given: Given<'_, N>, ledger: &mut L) -> Verdict
    requires given { IsGiven N.value N.limit given }
    requires columns { length given.cert.now.step ≡ given.forms.now.columns }
    ensures exact { result ≡ verdict (covering_tests N.limit (robust N.value given.entry.model.now)
        (step_covering (certificate_of N.value given.entry.cert.now))) }
    ensures counted { Counted L.ops L.wides ledger.old ledger.new result }
{
    let scale: N = one(ledger);
    let first: N = zero(ledger);
    let covering = Covering {
        covered: Covered::Step,
        scale,
        first,
        columns: given.cert.step.items(),
        bound: given.cert.step_bound,
        covers: given.cert.holds.items(),
    };
    check_covers(given.forms, given.set, &covering, ledger)
}

/// The verdict on the sums of the items, then on the covers of the plan.
fn check_optimum<N: Exact, L: Ledger>(given: Given<'_, N>, ledger: &mut L) -> Verdict
    requires given { IsGiven N.value N.limit given }
    requires columns { length given.cert.now.plan ≡ given.forms.now.columns }
    ensures exact { result ≡ verdict (optimum_tests N.limit (robust N.value given.entry.model.now)
        (certificate_of N.value given.entry.cert.now)) }
    ensures counted { Counted L.ops L.wides ledger.old ledger.new result }
{
    match check_sums(
        given.forms,
        given.cert.items.items(),
        Some(given.cert.value),
        ledger,
    ) {
        Verdict::Accepted => check_plan(given, ledger),
        flaw => flaw,
    }
}

/// The verdict on a certificate that claims an optimum.
fn check_optimal<N: Exact, L: Ledger>(given: Given<'_, N>, ledger: &mut L) -> Verdict
    requires given { IsGiven N.value N.limit given }
    requires columns { length given.cert.now.plan ≡ given.forms.now.columns }
    ensures exact { result ≡ verdict
        (conditions_as N.limit (robust N.value given.entry.model.now) optimal
        (certificate_of N.value given.entry.cert.now)) }
    ensures counted { Counted L.ops L.wides ledger.old ledger.new result }
{
    if !is_positive(given.cert.scale) {
        return Verdict::Rejected(Place::Scale);
    }
    match check_base(given, ledger) {
        Verdict::Accepted => check_optimum(given, ledger),
        flaw => flaw,
    }
}

/// The verdict on a certificate that claims that no plan has a bound.
fn check_infeasible<N: Exact, L: Ledger>(given: Given<'_, N>, ledger: &mut L) -> Verdict
    requires given { IsGiven N.value N.limit given }
    ensures exact { result ≡ verdict
        (conditions_as N.limit (robust N.value given.entry.model.now) infeasible
        (certificate_of N.value given.entry.cert.now)) }
    ensures counted { Counted L.ops L.wides ledger.old ledger.new result }
{
    match check_base(given, ledger) {
        Verdict::Accepted => check_sums(given.forms, given.cert.items.items(), None, ledger),
        flaw => flaw,
    }
}

/// Whether the bound of a direction improves: below 0 for minimise, above 0 for maximise.
fn bound_improves<N: Exact>(sense: Sense, bound: N) -> bool
    ensures test { result ≡ improves (sense_of sense) (N.value bound) }
{
    match sense {
        Sense::Minimise => !is_nonnegative(bound),
        Sense::Maximise => is_positive(bound),
    }
}

/// The verdict on the direction: its bound improves, and it is covered.
fn check_move<N: Exact, L: Ledger>(given: Given<'_, N>, ledger: &mut L) -> Verdict
    requires given { IsGiven N.value N.limit given }
    requires step_columns { length given.cert.now.step ≡ given.forms.now.columns }
    ensures exact { result ≡ verdict (move_tests N.limit (robust N.value given.entry.model.now)
        (certificate_of N.value given.entry.cert.now)) }
    ensures counted { Counted L.ops L.wides ledger.old ledger.new result }
{
    if !bound_improves(given.forms.sense, given.cert.step_bound) {
        return Verdict::Rejected(Place::MoveBound);
    }
    check_step(given, ledger)
}

/// The verdict on the covers of the plan, then on the direction.
fn check_ray<N: Exact, L: Ledger>(given: Given<'_, N>, ledger: &mut L) -> Verdict
    requires given { IsGiven N.value N.limit given }
    requires columns { length given.cert.now.plan ≡ given.forms.now.columns }
    requires step_columns { length given.cert.now.step ≡ given.forms.now.columns }
    ensures exact { result ≡ verdict (ray_tests N.limit (robust N.value given.entry.model.now)
        (certificate_of N.value given.entry.cert.now)) }
    ensures counted { Counted L.ops L.wides ledger.old ledger.new result }
{
    match check_plan(given, ledger) {
        Verdict::Accepted => check_move(given, ledger),
        flaw => flaw,
    }
}

/// The verdict on a certificate that claims that each number is a bound of some plan.
fn check_unbounded<N: Exact, L: Ledger>(given: Given<'_, N>, ledger: &mut L) -> Verdict
    requires given { IsGiven N.value N.limit given }
    requires columns { length given.cert.now.plan ≡ given.forms.now.columns }
    requires step_columns { length given.cert.now.step ≡ given.forms.now.columns }
    ensures exact { result ≡ verdict
        (conditions_as N.limit (robust N.value given.entry.model.now) unbounded
        (certificate_of N.value given.entry.cert.now)) }
    ensures counted { Counted L.ops L.wides ledger.old ledger.new result }
{
    if !is_positive(given.cert.scale) {
        return Verdict::Rejected(Place::Scale);
    }
    match check_base(given, ledger) {
        Verdict::Accepted => check_ray(given, ledger),
        flaw => flaw,
    }
}

/// The verdict on a certificate: the conditions of its status, in order.
pub fn check_all<N: Exact, L: Ledger>(given: Given<'_, N>, ledger: &mut L) -> Verdict
    requires given { IsGiven N.value N.limit given }
    ensures exact { result ≡ verdict_of N.limit (robust N.value given.entry.model.now)
        (certificate_of N.value given.entry.cert.now) }
    ensures counted { Counted L.ops L.wides ledger.old ledger.new result }
{
    match given.cert.status {
        Status::Optimal => check_optimal(given, ledger),
        Status::Infeasible => check_infeasible(given, ledger),
        Status::Unbounded => check_unbounded(given, ledger),
    }
}
