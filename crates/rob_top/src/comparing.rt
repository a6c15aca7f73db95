//! `gen`: the model of a number, solved by both routes.

ghost use Rattle.std.specs.Prelude.{◌≡◌, ◌≤◌, ◌++◌, All, IfOk, None, Some};
ghost use Rattle.rob_cert.specs.View.{status_of};
ghost use Rattle.rob_dualize.specs.Solving.{HasScenario};
ghost use Rattle.rob_elab.specs.Elaborated.{IsElaborated};
ghost use Rattle.rob_model.specs.Valid.{IsValid};
ghost use Rattle.rob_model.specs.View.{robust};
ghost use Rattle.rob_report.specs.Places.{IsSpotOf};
ghost use Rattle.rob_report.specs.Rounds.{IsRoundOf};
ghost use Rattle.rob_top.specs.Calls.{count};
ghost use Rattle.rob_top.specs.Compared.{heading, status_line as line_of_status, wide_line as line_of_spot};
ghost use Rattle.rob_top.specs.ComparedWork.{RoseAtSpot, RepliesCompared, IsLineOf, first_ended};
ghost use Rattle.rob_commands.specs.Replies.{Replies};
ghost use Rattle.rob_top.specs.Routes.{with_rounds};
ghost use Rattle.rob_words.specs.Values.{greatest_of};

use crate::solving::{find, put_told_rounds};
use itoa::Buffer;
use rob_cert::spelling::{put_named, put_words};
use rob_cert::{Cert, Status, Stop, Trace};
use rob_commands::Ended;
use rob_commands::reply::Reply;
use rob_dualize::Elaborated;
use rob_elab::{ElabErr, written};
use rob_gen::generate;
use rob_model::{Model, Spot};
use rob_number::{Exact, Ledger, Memory, Text};
use rob_quick::Quick;
use rob_report::spot_text;
use rob_words::{Route, Width};
use std::alloc::Global;

/// What a route tells: its line, with the rounds behind it; and the spot of a number that is wide on its way, none
/// where it has a status.
#[derive(Debug, Drop)]
pub struct RouteLine {
    pub text: Text,
    pub spot: Option<Spot>,
}

/// The answer of `gen`, at a width.
pub fn compare_routes<L: Ledger>(
    alloc: Global,
    number: u32,
    width: Width,
    ledger: &mut L,
) -> Result<Reply, Memory>
    ensures compared { IfOk result (RepliesCompared (greatest_of width)
        (count (L.wides ledger.old) (L.wides ledger.new)) number) }
    ensures counted { L.wides ledger.old ≤ L.wides ledger.new }
{
    match width {
        Width::Eight => compare::<Quick<8>, L>(alloc, number, ledger),
        Width::Sixteen => compare::<Quick<16>, L>(alloc, number, ledger),
        Width::ThirtyTwo => compare::<Quick<32>, L>(alloc, number, ledger),
        Width::SixtyTwo => compare::<Quick<62>, L>(alloc, number, ledger),
    }
}

/// The answer with this kind of numbers.
fn compare<N: Exact + Drop, L: Ledger>(
    alloc: Global,
    number: u32,
    ledger: &mut L,
) -> Result<Reply, Memory>
    requires limit { 255 ≤ N.limit }
    ensures compared { IfOk result (RepliesCompared N.limit
        (count (L.wides ledger.old) (L.wides ledger.new)) number) }
    ensures counted { L.wides ledger.old ≤ L.wides ledger.new }
{
    let model = generate::<N, L>(alloc, number, ledger)?;
    match written(alloc, &model, ledger) {
        Ok((forms, set)) => {
            let elaborated = Elaborated {
                forms: &forms,
                set: &set,
            };
            let dual = line_by(alloc, &model, elaborated, Route::Dual, ledger)?;
            let cuts = line_by(alloc, &model, elaborated, Route::Cuts, ledger)?;
            summary(alloc, number, dual, cuts)
        }
        // No number of a generated model's set rows and forms is wide.
        Err(ElabErr::Wide(_)) => unreachable!(),
        Err(ElabErr::Memory) => Err(Memory),
    }
}

/// What a route tells of a model that has an admitted scenario.
fn line_by<N: Exact + Drop, L: Ledger>(
    alloc: Global,
    model: &Model<N>,
    elaborated: Elaborated,
    route: Route,
    ledger: &mut L,
) -> Result<RouteLine, Memory>
    requires valid { IsValid N.value model.now }
    requires elaborated { IsElaborated N.limit (robust N.value model.now)
        elaborated.forms.now elaborated.set.now }
    requires admitted { HasScenario (robust N.value model.now) }
    ensures told { IfOk result (λ told. IsLineOf N.limit
        (robust N.value model.now) route told.spot told.text) }
    ensures rose { IfOk result (λ told. RoseAtSpot
        (count (L.wides ledger.old) (L.wides ledger.new)) told.spot) }
    ensures counted { L.wides ledger.old ≤ L.wides ledger.new }
{
    match find::<N, L>(alloc, elaborated, route, ledger) {
        Ok((cert, _)) => status_line(alloc, route, &cert),
        Err(Stop::Wide(spot, trace)) => wide_line(alloc, model, route, spot, &trace),
        // Some joint scenario is admitted.
        Err(Stop::EmptySet(_)) => unreachable!(),
        Err(Stop::Memory) => Err(Memory),
    }
}

/// The line of a route with the status of its certificate.
fn status_line<N: Exact>(alloc: Global, route: Route, cert: &Cert<N>) -> Result<RouteLine, Memory>
    ensures line { IfOk result (λ told. told.text
        ≡ line_of_status route (status_of cert.now.status) (N.value cert.now.value)) }
    ensures no_spot { IfOk result (λ told. told.spot ≡ None) }
{
    let mut text = Text::new(alloc);
    let way = route.word().as_bytes();
    match cert.status {
        Status::Optimal => put_named(&mut text, way, b"optimal", cert.value)?,
        Status::Infeasible => put_words(&mut text, way, b"infeasible")?,
        Status::Unbounded => put_words(&mut text, way, b"unbounded")?,
    }
    Ok(RouteLine { text, spot: None })
}

/// The line of a route with the spot of a number that is wide on its way, and the rounds before it.
fn wide_line<N: Exact>(
    alloc: Global,
    model: &Model<N>,
    route: Route,
    spot: Spot,
    trace: &Trace,
) -> Result<RouteLine, Memory>
    requires valid { IsValid N.value model.now }
    requires named { IsSpotOf (robust N.value model.now) spot }
    requires rounds { All (IsRoundOf (robust N.value model.now)) trace.now.rounds }
    ensures line { IfOk result (λ told. told.text
        ≡ with_rounds route (robust N.value model.now) trace.now.rounds
        (line_of_spot route (robust N.value model.now) spot)) }
    ensures spot { IfOk result (λ told. told.spot ≡ Some spot) }
{
    let mut text = Text::new(alloc);
    text.push(route.word().as_bytes())?;
    text.push(b" ")?;
    let line = spot_text(alloc, model, &spot)?;
    text.push(line.bytes())?;
    put_told_rounds(model, route, trace, &mut text)?;
    Ok(RouteLine {
        text,
        spot: Some(spot),
    })
}

/// The answer with the summary of what the two routes told. It alone has their lines: what it calls is lent them.
fn summary(alloc: Global, number: u32, dual: RouteLine, cuts: RouteLine) -> Result<Reply, Memory>
    ensures summary { IfOk result (Replies (first_ended dual.spot cuts.spot)
        (heading number ++ (dual.text ++ cuts.text))) }
{
    let text = summary_text(alloc, number, dual.text.bytes(), cuts.text.bytes())?;
    Ok(Reply {
        ended: ended_first(dual.spot, cuts.spot),
        text,
    })
}

/// The text of the summary.
fn summary_text(alloc: Global, number: u32, dual: &[u8], cuts: &[u8]) -> Result<Text, Memory>
    ensures text { IfOk result (λ text. text ≡ heading number ++ (dual.now ++ cuts.now)) }
{
    let mut text = Text::new(alloc);
    text.push(b"gen ")?;
    text.push(Buffer::new().format(number).as_bytes())?;
    text.push(b" periods ")?;
    text.push(Buffer::new().format(number % 4 + 2).as_bytes())?;
    text.push(b"\n")?;
    text.push(dual)?;
    text.push(cuts)?;
    Ok(text)
}

/// The answer by the spots that the two routes told.
fn ended_first(dual: Option<Spot>, cuts: Option<Spot>) -> Ended
    ensures first { result ≡ first_ended dual cuts }
{
    match dual {
        Some(spot) => Ended::TooWide(spot),
        None => match cuts {
            Some(spot) => Ended::TooWide(spot),
            None => Ended::Printed,
        },
    }
}
