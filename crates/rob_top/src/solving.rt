//! The answers of `solve` and `prove`.

ghost use Rattle.std.specs.Prelude.{◌≡◌, ◌≤◌, All, IfOk, OnOk};
ghost use Rattle.rob_cert.specs.Shape.{HasShape};
ghost use Rattle.rob_cert.specs.View.{certificate_of, status_of};
ghost use Rattle.rob_cuts.specs.Solving.{AreOfModel};
ghost use Rattle.rob_dualize.specs.Wholes.{IsFew, counterpart_of};
ghost use Rattle.rob_elab.specs.Elaborated.{IsElaborated};
ghost use Rattle.rob_elab.specs.Forms.{IsForms};
ghost use Rattle.rob_meaning.specs.RobustModel.{RobustModel};
ghost use Rattle.rob_meaning.specs.WellFormed.{IsModel};
ghost use Rattle.rob_model.specs.Valid.{IsValid};
ghost use Rattle.rob_model.specs.View.{robust};
ghost use Rattle.rob_report.specs.Places.{IsSpotOf};
ghost use Rattle.rob_report.specs.Report.{report_of};
ghost use Rattle.rob_report.specs.Rounds.{IsRoundOf};
ghost use Rattle.rob_report.specs.Spots.{too_wide_line};
ghost use Rattle.rob_sets.specs.SetForm.{IsSetForm};
ghost use Rattle.rob_top.specs.Calls.{count};
ghost use Rattle.rob_commands.specs.Replies.{Replies, ended_of};
ghost use Rattle.rob_top.specs.Routes.{SolvesBy, with_rounds};
ghost use Rattle.rob_top.specs.Work.{AnswersRoute};
ghost use Rattle.rob_top.specs.WorkStops.{IsStopOf, RepliesStop};
ghost use Rattle.rob_words.specs.declared.verb.Verb.TheVariants.{Prove, Solve};

use rob_cert::{Cert, Stop, Trace};
use rob_commands::Ended;
use rob_commands::certificates::{empty_set, ended_by, proved};
use rob_commands::reply::Reply;
use rob_cuts::solve_cuts;
use rob_dualize::{Elaborated, solve_dual};
use rob_model::{Model, Spot};
use rob_number::{Exact, Ledger, List, Memory, Text};
use rob_report::{put_rounds, report_text, spot_text};
use rob_words::Route;
use std::alloc::Global;

/// The answer of `solve`: the status, and of an optimum the plan; by cutting planes the rounds behind them.
pub fn solve<N: Exact + Drop, L: Ledger>(
    alloc: Global,
    model: &Model<N>,
    elaborated: Elaborated,
    route: Route,
    ledger: &mut L,
) -> Result<Reply, Memory>
    requires valid { IsValid N.value model.now }
    requires elaborated { IsElaborated N.limit (robust N.value model.now)
        elaborated.forms.now elaborated.set.now }
    ensures answers { IfOk result (AnswersRoute N.limit
        (count (L.wides ledger.old) (L.wides ledger.new))
        (robust N.value model.now) Solve route) }
    ensures counted { L.wides ledger.old ≤ L.wides ledger.new }
{
    match find(alloc, elaborated, route, ledger) {
        Ok((cert, trace)) => reported(alloc, model, &cert, route, &trace),
        Err(stop) => stopped(alloc, model, route, stop),
    }
}

/// The answer of `prove`: the certificate.
pub fn prove<N: Exact + Drop, L: Ledger>(
    alloc: Global,
    model: &Model<N>,
    elaborated: Elaborated,
    route: Route,
    ledger: &mut L,
) -> Result<Reply, Memory>
    requires valid { IsValid N.value model.now }
    requires elaborated { IsElaborated N.limit (robust N.value model.now)
        elaborated.forms.now elaborated.set.now }
    ensures answers { IfOk result (AnswersRoute N.limit
        (count (L.wides ledger.old) (L.wides ledger.new))
        (robust N.value model.now) Prove route) }
    ensures counted { L.wides ledger.old ≤ L.wides ledger.new }
{
    match find(alloc, elaborated, route, ledger) {
        Ok((cert, _)) => proved(alloc, model, &cert),
        Err(stop) => stopped(alloc, model, route, stop),
    }
}

/// The certificate that the route finds, with its rounds; by the robust counterpart there are none. `EmptySet` comes
/// only where no joint scenario is admitted; `Wide` names a number on the route's way that is wide.
pub fn find<N: Exact + Drop, L: Ledger>(
    alloc: Global,
    elaborated: Elaborated,
    route: Route,
    ledger: &mut L,
) -> Result<(Cert<N>, Trace), Stop>
    requires model { AreOfModel N.limit elaborated.forms.now elaborated.set.now }
    requires few { IsFew (counterpart_of elaborated.forms.now elaborated.set.now) }
    ensures solves { (m : RobustModel) → IsModel m → IsForms m elaborated.entry.forms.now
        → IsSetForm m elaborated.entry.set.now
        → SolvesBy route N.value N.limit m (L.wides ledger.old) (L.wides ledger.new) result }
{
    match route {
        Route::Dual => match solve_dual(alloc, elaborated.forms, elaborated.set, ledger) {
            Ok(cert) => Ok((
                cert,
                Trace {
                    rounds: List::new(alloc),
                },
            )),
            Err(stop) => Err(stop),
        },
        Route::Cuts => solve_cuts(alloc, elaborated.forms, elaborated.set, ledger),
    }
}

/// The report of a certificate, with the rounds behind it.
fn reported<N: Exact>(
    alloc: Global,
    model: &Model<N>,
    cert: &Cert<N>,
    route: Route,
    trace: &Trace,
) -> Result<Reply, Memory>
    requires valid { IsValid N.value model.now }
    requires shape { HasShape (robust N.value model.now) (certificate_of N.value cert.now) }
    requires rounds { All (IsRoundOf (robust N.value model.now)) trace.now.rounds }
    ensures report { IfOk result (Replies (ended_of (status_of cert.now.status))
        (with_rounds route (robust N.value model.now) trace.now.rounds
        (report_of (robust N.value model.now) (certificate_of N.value cert.now)))) }
{
    let mut text = report_text(alloc, model, cert)?;
    put_told_rounds(model, route, trace, &mut text)?;
    Ok(Reply {
        ended: ended_by(cert.status),
        text,
    })
}

/// The answer where the route stopped; by `Dual`, which stands for want of a route too, no rounds are told.
pub fn stopped<N: Exact>(
    alloc: Global,
    model: &Model<N>,
    route: Route,
    stop: Stop,
) -> Result<Reply, Memory>
    requires valid { IsValid N.value model.now }
    requires named { IsStopOf (robust N.value model.now) stop }
    ensures stop { IfOk result (RepliesStop (robust N.value model.now) route stop) }
{
    match stop {
        Stop::EmptySet(weights) => empty_set(alloc, model, weights),
        Stop::Wide(spot, trace) => wide_on_way(alloc, model, route, spot, &trace),
        Stop::Memory => Err(Memory),
    }
}

/// The answer where a number on the route's way is too wide, with the rounds before it.
pub fn wide_on_way<N: Exact>(
    alloc: Global,
    model: &Model<N>,
    route: Route,
    spot: Spot,
    trace: &Trace,
) -> Result<Reply, Memory>
    requires valid { IsValid N.value model.now }
    requires named { IsSpotOf (robust N.value model.now) spot }
    requires rounds { All (IsRoundOf (robust N.value model.now)) trace.now.rounds }
    ensures spot { IfOk result (Replies (Ended.TooWide spot)
        (with_rounds route (robust N.value model.now) trace.now.rounds
        (too_wide_line (robust N.value model.now) spot))) }
{
    let mut text = spot_text(alloc, model, &spot)?;
    put_told_rounds(model, route, trace, &mut text)?;
    Ok(Reply {
        ended: Ended::TooWide(spot),
        text,
    })
}

/// Appends the rounds of the cutting-plane method; by the robust counterpart none are told.
pub fn put_told_rounds<N: Exact>(
    model: &Model<N>,
    route: Route,
    trace: &Trace,
    out: &mut Text,
) -> Result<(), Memory>
    requires valid { IsValid N.value model.now }
    requires rounds { All (IsRoundOf (robust N.value model.now)) trace.now.rounds }
    ensures appended { OnOk result
        (out.new ≡ with_rounds route (robust N.value model.now) trace.now.rounds out.old) }
{
    match route {
        Route::Dual => Ok(()),
        Route::Cuts => put_rounds(model, trace.rounds.items(), out),
    }
}
