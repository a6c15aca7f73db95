//! Scenarios and rays: the set conditions, each taken some number of times.

ghost use Rattle.std.specs.Prelude.{◌≡◌, ◌≤◌, map};
ghost use Rattle.rob_check.specs.Conditions.{set_tests};
ghost use Rattle.rob_check.specs.Scenario.{bound_tests, taken_place};
ghost use Rattle.rob_check.specs.Verdicts.{Counted, verdict};
ghost use Rattle.rob_meaning.specs.RobustModel.{RobustModel};
ghost use Rattle.rob_meaning.specs.SetConditions.{all_stated, set_conditions};
ghost use Rattle.rob_model.specs.Valid.{IsValid};
ghost use Rattle.rob_model.specs.View.{parameter_of, robust, set_line_of};

use crate::verdict::{Verdict, judge};
use rob_model::bounds::{declared, keeps_lower, keeps_upper};
use rob_model::statements::holds;
use rob_model::{Model, Param, Place};
use rob_number::{Exact, Ledger};

/// Whose vector meets the set conditions.
#[derive(Clone, Copy, Debug, PartialEq, Eq)]
pub enum Taken {
    /// The scenario `inside`.
    Inside,
    /// That item's vector.
    Item(u32),
}

/// A vector, and how often each set condition is taken there.
#[derive(Clone, Copy)]
struct Point<'a, N> {
    base: N,
    vector: &'a [N],
}

/// The place of a set condition.
fn place_of(taken: Taken, condition: u32) -> Place
    ensures place { result ≡ taken_place taken condition }
{
    match taken {
        Taken::Inside => Place::Inside(condition),
        Taken::Item(item) => Place::Item(item, condition),
    }
}

/// The verdict on the declared bounds of parameter `k`, each taken `base` times; the first has number `index`.
fn check_bounds<N: Exact, L: Ledger>(
    taken: Taken,
    index: u32,
    k: usize,
    param: &Param<N>,
    point: Point<N>,
    ledger: &mut L,
) -> Verdict
    requires small { index ≤ 1000 }
    ensures exact { (m : RobustModel) → result ≡ verdict (bound_tests N.limit m (taken_place taken)
        (N.value point.entry.base) (map N.value point.entry.vector.now) index k
        (parameter_of N.value param.now)) }
    ensures counted { Counted L.ops L.wides ledger.old ledger.new result }
{
    let Point { base, vector } = point;
    let lower = keeps_lower(k, &param.lower, base, vector, ledger);
    match judge(place_of(taken, index), lower) {
        Verdict::Accepted => {}
        flaw => return flaw,
    }
    let next = index + declared(&param.lower);
    let upper = keeps_upper(k, &param.upper, base, vector, ledger);
    judge(place_of(taken, next), upper)
}

/// The verdict on the statements, each taken `base` times; the first has number `first`.
fn check_statements<N: Exact, L: Ledger>(
    taken: Taken,
    first: u32,
    model: &Model<N>,
    point: Point<N>,
    ledger: &mut L,
) -> Verdict
    requires valid { IsValid N.value model.now }
    requires small { first ≤ 1000 }
    ensures exact { result ≡ verdict
        (set_tests N.limit (robust N.value model.now) (taken_place taken)
        (N.value point.entry.base) (map N.value point.entry.vector.now) first
        (all_stated (map (set_line_of N.value) model.now.set_lines))) }
    ensures counted { Counted L.ops L.wides ledger.old ledger.new result }
{
    let Point { base, vector } = point;
    let mut index = first;
    for line in model.set_lines.items() {
        let test = holds(line, model, base, vector, ledger);
        match judge(place_of(taken, index), test) {
            Verdict::Accepted => {}
            flaw => return flaw,
        }
        index += 1;
    }
    Verdict::Accepted
}

/// The verdict on the set conditions, each taken `base` times: the bounds of parameters, then the statements.
pub fn check_vector<N: Exact, L: Ledger>(
    taken: Taken,
    model: &Model<N>,
    base: N,
    vector: &[N],
    ledger: &mut L,
) -> Verdict
    requires valid { IsValid N.value model.now }
    ensures exact { result ≡ verdict
        (set_tests N.limit (robust N.value model.now) (taken_place taken)
        (N.value base) (map N.value vector.now) 0 (set_conditions (robust N.value model.now))) }
    ensures counted { Counted L.ops L.wides ledger.old ledger.new result }
{
    let mut index = 0u32;
    for (k, param) in model.params.items().iter().enumerate() {
        match check_bounds(taken, index, k, param, Point { base, vector }, ledger) {
            Verdict::Accepted => {}
            flaw => return flaw,
        }
        index += declared(&param.lower) + declared(&param.upper);
    }
    check_statements(taken, index, model, Point { base, vector }, ledger)
}
