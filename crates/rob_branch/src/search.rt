//! How far a search is, and what comes of a box with its certificate.

ghost use Rattle.std.specs.Prelude.{◌≡◌, ◌<◌, Bool, map, option_map};
ghost use Rattle.rob_cert.specs.View.{certificate_of};
ghost use Rattle.rob_model.specs.View.{sense_of};
ghost use Rattle.rob_reach.specs.Growing as growing;
ghost use Rattle.rob_meaning.specs.Places.{at};
ghost use Rattle.rob_reach.specs.WholeNumbers as whole;
ghost use Rattle.rob_meaning.specs.Certificates.{optimal, unbounded};
ghost use Rattle.rob_branch.specs.View.{BranchesWithin, best_of, outcome_of, search_of};

use rob_cert::{Cert, Status};
use rob_model::Sense;
use rob_model::numbers::{at_most, number_at};
use rob_number::{Exact, Tally};
use rob_tree::whole_number::{floor, is_whole};

/// The best whole plan so far.
#[derive(Clone, Copy, Debug)]
pub struct Best<N> {
    /// The number of its leaf, from 1.
    pub number: u32,
    pub value: N,
}

/// How far a search is.
#[derive(Clone, Copy, Debug)]
pub struct Search<N> {
    /// The number of leaves so far, open ones too.
    pub count: u32,
    pub best: Option<Best<N>>,
    /// The number of the leaf that shows the model to be unbounded.
    pub endless: Option<u32>,
}

/// What comes of a box.
#[derive(Clone, Copy, Debug)]
pub enum Outcome<N> {
    /// A leaf: how far the search is behind it.
    Ends(Search<N>),
    /// A branch on the variable of that number at K.
    Branches(u32, i64),
}

/// One leaf more.
pub fn counted<N: Exact>(search: Search<N>) -> Search<N>
    requires few { search.count < 1000 }
    ensures search { search_of N.value result ≡ growing.counted (search_of N.value search) }
{
    Search {
        count: search.count + 1,
        best: search.best,
        endless: search.endless,
    }
}

/// One leaf more, whose whole plan is the best so far.
fn improved<N: Exact>(search: Search<N>, value: N) -> Search<N>
    requires few { search.count < 1000 }
    ensures search { search_of N.value result
        ≡ growing.improved (search_of N.value search) (N.value value) }
{
    let number = search.count + 1;
    Search {
        count: number,
        best: Some(Best { number, value }),
        endless: search.endless,
    }
}

/// One leaf more, which shows the model to be unbounded.
fn shown_endless<N: Exact>(search: Search<N>) -> Search<N>
    requires few { search.count < 1000 }
    ensures search { search_of N.value result ≡ growing.shown_endless (search_of N.value search) }
{
    let number = search.count + 1;
    Search {
        count: number,
        best: search.best,
        endless: Some(number),
    }
}

/// Whether an optimum is no better than the best whole plan so far.
fn is_beaten<N: Exact>(sense: Sense, best: Option<Best<N>>, value: N) -> bool
    ensures test { result ≡ growing.is_beaten (sense_of sense) (option_map (best_of N.value) best)
        (N.value value) }
{
    match best {
        None => false,
        Some(best) => match sense {
            Sense::Minimise => at_most(best.value, value),
            Sense::Maximise => at_most(value, best.value),
        },
    }
}

/// The first named variable whose number isn't whole in the plan.
pub fn first_broken<N: Exact>(names: &[u32], plan: &[N]) -> Option<u32>
    ensures first { result ≡ growing.first_broken names.now (map N.value plan.now) }
{
    for column in names {
        if !is_whole(number_at(plan, *column as usize, &mut Tally::new())) {
            return Some(*column);
        }
    }
    None
}

/// A branch on the variable of that number at the floor of its number in the plan, which isn't whole.
fn branches<N: Exact>(plan: &[N], column: u32) -> Outcome<N>
    requires broken { whole.IsWhole (at (map N.value plan.now) column) → ⊥ }
    ensures outcome { outcome_of N.value result
        ≡ growing.branches column (whole.floor (at (map N.value plan.now) column)) }
    ensures within { BranchesWithin N.limit (outcome_of N.value result) }
{
    let number = number_at(plan, column as usize, &mut Tally::new());
    Outcome::Branches(column, floor(number))
}

/// What comes of a box that is optimal: a leaf where its optimum is beaten or its plan is whole, else a branch.
fn of_optimum<N: Exact>(
    names: &[u32],
    sense: Sense,
    search: Search<N>,
    cert: &Cert<N>,
) -> Outcome<N>
    requires few { search.count < 1000 }
    ensures outcome { outcome_of N.value result ≡ growing.outcome_by (search_of N.value search)
        (certificate_of N.value cert.now) optimal
        (growing.is_beaten (sense_of sense) (search_of N.value search).best
        (N.value cert.now.value))
        (growing.first_broken names.now (map N.value cert.now.plan)) }
    ensures within { BranchesWithin N.limit (outcome_of N.value result) }
{
    if is_beaten(sense, search.best, cert.value) {
        return Outcome::Ends(counted(search));
    }
    match first_broken(names, cert.plan.items()) {
        None => Outcome::Ends(improved(search, cert.value)),
        Some(column) => branches(cert.plan.items(), column),
    }
}

/// What comes of a box that is unbounded: a leaf that shows the model to be so where its plan is whole, else a branch.
fn of_ray<N: Exact>(names: &[u32], search: Search<N>, cert: &Cert<N>) -> Outcome<N>
    requires few { search.count < 1000 }
    ensures outcome { (beaten : Bool)
        → outcome_of N.value result ≡ growing.outcome_by (search_of N.value search)
        (certificate_of N.value cert.now) unbounded beaten
        (growing.first_broken names.now (map N.value cert.now.plan)) }
    ensures within { BranchesWithin N.limit (outcome_of N.value result) }
{
    match first_broken(names, cert.plan.items()) {
        None => Outcome::Ends(shown_endless(search)),
        Some(column) => branches(cert.plan.items(), column),
    }
}

/// What comes of a box with a certificate: a leaf where it is infeasible, where its optimum is beaten, or where its
/// plan is whole; else a branch on the first named variable whose number isn't whole, at the number's floor.
pub fn comes_of<N: Exact>(
    names: &[u32],
    sense: Sense,
    search: Search<N>,
    cert: &Cert<N>,
) -> Outcome<N>
    requires few { search.count < 1000 }
    ensures outcome { outcome_of N.value result
        ≡ growing.outcome names.now (sense_of sense) (search_of N.value search)
        (certificate_of N.value cert.now) }
    // K and K + 1 are within the limit.
    ensures within { BranchesWithin N.limit (outcome_of N.value result) }
{
    match cert.status {
        Status::Infeasible => Outcome::Ends(counted(search)),
        Status::Optimal => of_optimum(names, sense, search, cert),
        Status::Unbounded => of_ray(names, search, cert),
    }
}
