//! The check of a leaf: its certificate for its box, then its status, then its value; and what the leaf that is to show
//! the status shows.

ghost use Rattle.std.specs.Prelude.{◌≡◌, ◌↔◌, IsTrue, map};
ghost use Rattle.rob_cert.specs.Shape.{HasShape};
ghost use Rattle.rob_cert.specs.View.{certificate_of, status_of};
ghost use Rattle.rob_elab.specs.Elaborated.{IsElaborated};
ghost use Rattle.rob_elab.specs.Written.{IsWritten};
ghost use Rattle.rob_meaning.specs.Guarantee.{IsNoWorse};
ghost use Rattle.rob_model.specs.Valid.{IsValid};
ghost use Rattle.rob_model.specs.View.{robust, sense_of};
ghost use Rattle.rob_reach.specs.Verdicts.{KeepsValue, MayBe, Shows};
ghost use Rattle.rob_reach.specs.WholeStatus.{IsWholeOn};
ghost use Rattle.rob_branch.specs.Leaves.{CountsLeaf, IsClaimed, IsLeafJudged, IsLastFault, leaf_refusal};

use crate::search::first_broken;
use rob_cert::{Cert, Status};
use rob_check::{Verdict, check};
use rob_elab::{ElabErr, Forms, written};
use rob_model::numbers::at_most;
use rob_model::{Model, Sense, Spot};
use rob_number::{Exact, Ledger};
use rob_sets::SetForm;
use rob_tree::LeafFault;
use std::alloc::Global;

/// What a tree claims.
#[derive(Clone, Copy, Debug)]
pub struct Claim<N> {
    pub status: Status,
    pub value: N,
}

/// What comes of the check of a leaf.
#[derive(Debug, Drop)]
pub enum LeafCheck {
    Passed,
    Fails(LeafFault),
    Wide(Spot),
    Memory,
}

/// Whether a leaf of that status may stand in a tree that claims the other.
fn may_be(claimed: Status, status: Status) -> bool
    ensures test { IsTrue result ↔ MayBe (status_of claimed) (status_of status) }
{
    match claimed {
        Status::Optimal => match status {
            Status::Unbounded => false,
            _ => true,
        },
        Status::Infeasible => match status {
            Status::Infeasible => true,
            _ => false,
        },
        Status::Unbounded => true,
    }
}

/// Whether a value is no better than the other's.
fn is_no_worse<N: Exact>(sense: Sense, value: N, other: N) -> bool
    ensures test { IsTrue result ↔ IsNoWorse (sense_of sense) (N.value value) (N.value other) }
{
    match sense {
        Sense::Minimise => at_most(value, other),
        Sense::Maximise => at_most(other, value),
    }
}

/// Whether a leaf of an optimal tree is no better than the tree's value.
fn keeps_value<N: Exact>(claim: Claim<N>, sense: Sense, cert: &Cert<N>) -> bool
    ensures test { IsTrue result
        ↔ KeepsValue (status_of claim.status) (sense_of sense) (N.value claim.value)
        (certificate_of N.value cert.now) }
{
    match (claim.status, cert.status) {
        (Status::Optimal, Status::Optimal) => is_no_worse(sense, claim.value, cert.value),
        _ => true,
    }
}

/// What of an accepted leaf fails.
fn claimed<N: Exact>(claim: Claim<N>, sense: Sense, cert: &Cert<N>) -> LeafCheck
    ensures claimed { IsClaimed (status_of claim.status) (sense_of sense) (N.value claim.value)
        (certificate_of N.value cert.now) result }
{
    if !may_be(claim.status, cert.status) {
        LeafCheck::Fails(LeafFault::Status)
    } else if !keeps_value(claim, sense, cert) {
        LeafCheck::Fails(LeafFault::Value)
    } else {
        LeafCheck::Passed
    }
}

/// What comes of the check where the box cannot be written in whole numbers.
fn refused(error: ElabErr) -> LeafCheck
    ensures told { result ≡ leaf_refusal error }
{
    match error {
        ElabErr::Wide(spot) => LeafCheck::Wide(spot),
        ElabErr::Memory => LeafCheck::Memory,
    }
}

/// What comes of the check of a leaf whose box is written in whole numbers: of its certificate, and then of what it
/// claims.
fn judge_written<N: Exact, L: Ledger>(
    model: &Model<N>,
    forms: &Forms,
    set: &SetForm,
    claim: Claim<N>,
    cert: &Cert<N>,
    ledger: &mut L,
) -> LeafCheck
    requires valid { IsValid N.value model.now }
    requires elaborated { IsElaborated N.limit (robust N.value model.now) forms.now set.now }
    requires none_wide { IsWritten N.limit (robust N.value model.now) }
    requires shape { HasShape (robust N.value model.now) (certificate_of N.value cert.now) }
    ensures judged { IsLeafJudged N.limit (status_of claim.status) (N.value claim.value)
        (robust N.value model.now) (certificate_of N.value cert.now) result }
    ensures counted { CountsLeaf L.ops L.wides ledger.old ledger.new result }
{
    match check(model, forms, set, cert, ledger) {
        Verdict::TooWide(place) => LeafCheck::Wide(Spot::Check(place)),
        Verdict::Rejected(place) => LeafCheck::Fails(LeafFault::At(place)),
        Verdict::Accepted => claimed(claim, model.sense, cert),
    }
}

/// What comes of the check of a leaf: of its certificate for its box, and then of what it claims.
pub fn judge_leaf<N: Exact, L: Ledger>(
    alloc: Global,
    model: &Model<N>,
    claim: Claim<N>,
    cert: &Cert<N>,
    ledger: &mut L,
) -> LeafCheck
    requires valid { IsValid N.value model.now }
    requires shape { HasShape (robust N.value model.now) (certificate_of N.value cert.now) }
    ensures judged { IsLeafJudged N.limit (status_of claim.status) (N.value claim.value)
        (robust N.value model.now) (certificate_of N.value cert.now) result }
    ensures counted { CountsLeaf L.ops L.wides ledger.old ledger.new result }
{
    match written(alloc, model, ledger) {
        Ok((forms, set)) => judge_written(model, &forms, &set, claim, cert, ledger),
        Err(error) => refused(error),
    }
}

/// Whether a certificate shows what a tree claims.
fn shows<N: Exact>(claim: Claim<N>, cert: &Cert<N>) -> bool
    ensures test { IsTrue result
        ↔ Shows (status_of claim.status) (N.value claim.value) (certificate_of N.value cert.now) }
{
    match claim.status {
        Status::Optimal => cert.status == Status::Optimal && cert.value == claim.value,
        Status::Infeasible => true,
        Status::Unbounded => cert.status == Status::Unbounded,
    }
}

/// Whether the named variables are whole in a plan.
fn is_whole_on<N: Exact>(names: &[u32], plan: &[N]) -> bool
    ensures test { IsTrue result ↔ IsWholeOn names.now (map N.value plan.now) }
{
    first_broken(names, plan).is_none()
}

/// What of the leaf that is to show the status fails.
pub fn last_fault<N: Exact>(claim: Claim<N>, names: &[u32], cert: &Cert<N>) -> Option<LeafFault>
    ensures last { IsLastFault (status_of claim.status) names.now (N.value claim.value)
        (certificate_of N.value cert.now) result }
{
    if !shows(claim, cert) {
        Some(LeafFault::Best)
    } else if !is_whole_on(names, cert.plan.items()) {
        Some(LeafFault::Whole)
    } else {
        None
    }
}
