//! The rounds of cutting planes, and the certificate that ends them.

ghost use Rattle.rob_cert.specs.Shape.{HasShape};
ghost use Rattle.rob_cert.specs.View.{certificate_of};
ghost use Rattle.rob_dualize.specs.SetSolving.{IsFewSet};
ghost use Rattle.rob_elab.specs.Elaborated.{IsElaborated};
ghost use Rattle.rob_model.specs.Valid.{IsValid};
ghost use Rattle.rob_model.specs.View.{robust};

use crate::answer::Answer;
use crate::stops::stopped;
use crate::whole::Written;
use crate::worst::{compared, inside};
use rob_case::Trouble;
use rob_cert::{Cert, Item, Round, Status, write_cert};
use rob_cuts::solve_cuts;
use rob_model::Model;
use rob_number::{Exact, LpKind, Tally};
use rob_report::report_text;

/// What the cutting planes of a model come to, with their rounds; `all` tells it as `solve` and `prove` print it.
pub(crate) fn solved<N: Exact>(
    answer: &mut Answer,
    model: &Model<N>,
    whole: &Written,
    all: bool,
    ledger: &mut Tally,
) -> Result<(), Trouble>
    requires valid { IsValid N.value model.now }
    requires elaborated { IsElaborated N.limit
        (robust N.value model.now) whole.now.forms whole.now.set }
{
    match solve_cuts::<N, Tally>(answer.alloc, &whole.forms, &whole.set, ledger) {
        Ok((cert, trace)) => ended(answer, model, cert, trace.rounds.items(), all),
        Err(stop) => stopped(answer, stop, all),
    }
}

/// Whether the cutting planes of a model take fewer operations than to solve its set twice.
pub(crate) fn counted<N: Exact>(
    answer: &mut Answer,
    model: &Model<N>,
    whole: &Written,
) -> Result<(), Trouble>
    requires valid { IsValid N.value model.now }
    requires elaborated { IsElaborated N.limit
        (robust N.value model.now) whole.now.forms whole.now.set }
    requires few { IsFewSet whole.now.set }
{
    let mut ledger = Tally::new();
    let mut once = Tally::new();
    solved(answer, model, whole, false, &mut ledger)?;
    inside::<N>(answer, whole, &mut once)?;
    answer.text.clear();
    compared(answer, ledger.ops() / 2 < once.ops())
}

/// What is told of a certificate and of the rounds that led to it. It has the certificate, and lends it.
pub(crate) fn ended<N: Exact>(
    answer: &mut Answer,
    model: &Model<N>,
    cert: Cert<N>,
    made: &[Round],
    all: bool,
) -> Result<(), Trouble>
    requires valid { IsValid N.value model.now }
    requires shape { HasShape (robust N.value model.now) (certificate_of N.value cert) }
{
    told(answer, model, &cert, made, all)
}

/// What is told of a certificate and of rounds.
fn told<N: Exact>(
    answer: &mut Answer,
    model: &Model<N>,
    cert: &Cert<N>,
    made: &[Round],
    all: bool,
) -> Result<(), Trouble>
    requires valid { IsValid N.value model.now }
    requires shape { HasShape (robust N.value model.now) (certificate_of N.value cert.now) }
{
    if all {
        printed(answer, model, cert, made)
    } else {
        parts(answer, cert, made)
    }
}

/// What `solve` and then `prove` print of a certificate, and the rounds.
fn printed<N: Exact>(
    answer: &mut Answer,
    model: &Model<N>,
    cert: &Cert<N>,
    made: &[Round],
) -> Result<(), Trouble>
    requires valid { IsValid N.value model.now }
    requires shape { HasShape (robust N.value model.now) (certificate_of N.value cert.now) }
{
    answer.show(report_text(answer.alloc, model, cert)?)?;
    answer.show(write_cert(answer.alloc, model, cert)?)?;
    rounds(answer, made)
}

/// The certificate's status, value, plan, direction and items, and the rounds.
fn parts<N: Exact>(answer: &mut Answer, cert: &Cert<N>, made: &[Round]) -> Result<(), Trouble> {
    answer.say(status_word(cert.status))?;
    answer.number(" ", cert.value)?;
    answer.list(" plan", cert.plan.items())?;
    answer.list(" step", cert.step.items())?;
    items(answer, cert.items.items())?;
    rounds(answer, made)
}

/// The word of a status.
fn status_word(status: Status) -> &'static str {
    match status {
        Status::Optimal => "optimal",
        Status::Infeasible => "infeasible",
        Status::Unbounded => "unbounded",
    }
}

/// The items.
fn items<N: Exact>(answer: &mut Answer, items: &[Item<N>]) -> Result<(), Trouble> {
    for item in items {
        answer.tell(" item ", &item.form)?;
        answer.number(" by ", item.weight)?;
    }
    Ok(())
}

/// The rounds.
pub(crate) fn rounds(answer: &mut Answer, rounds: &[Round]) -> Result<(), Trouble> {
    for made in rounds {
        round(answer, made)?;
    }
    Ok(())
}

/// A round: its kind, what was tried, and its cut.
fn round(answer: &mut Answer, round: &Round) -> Result<(), Trouble> {
    answer.say(kind_word(round.kind))?;
    answer.tell(tried_words(round.by_step), &round.form)?;
    answer.tell(" at ", &round.base)?;
    answer.wholes("", round.vector.items())
}

/// The word of a round's kind.
fn kind_word(kind: LpKind) -> &'static str {
    match kind {
        LpKind::Optimal => "; best",
        LpKind::Infeasible => "; none",
        LpKind::Unbounded => "; boundless",
    }
}

/// What was tried in a round: a direction, or a plan.
fn tried_words(by_step: bool) -> &'static str {
    if by_step {
        " step form "
    } else {
        " plan form "
    }
}
