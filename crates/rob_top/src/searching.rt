//! The answer of `worst`.

ghost use Rattle.std.specs.Prelude.{◌≡◌, ◌≤◌, ◌<◌, ◌^◌, length, IfOk};
ghost use Rattle.rob_cert.specs.Shape.{HasShape};
ghost use Rattle.rob_cert.specs.View.{certificate_of};
ghost use Rattle.rob_elab.specs.Elaborated.{IsElaborated};
ghost use Rattle.rob_meaning.specs.Certificates.{Certificate};
ghost use Rattle.rob_meaning.specs.Forms.{forms as model_forms};
ghost use Rattle.rob_meaning.specs.Named.{IsNamed};
ghost use Rattle.rob_meaning.specs.RobustModel.{column_count};
ghost use Rattle.rob_model.specs.Valid.{IsValid};
ghost use Rattle.rob_model.specs.View.{robust};
ghost use Rattle.rob_report.specs.Worst.{worst_of};
ghost use Rattle.rob_top.specs.Calls.{count};
ghost use Rattle.rob_commands.specs.Replies.{Replies};
ghost use Rattle.rob_top.specs.Searched.{certificate_vector};
ghost use Rattle.rob_top.specs.SearchWork.{AnswersPlanned, AnswersSearch, AnswersSearched, AnswersSought, HasScale, RepliesWorst};
ghost use Rattle.rob_worst.specs.Finding.{HasConstantWithin};
ghost use Rattle.rob_worst.specs.Vectors.{plan_of};

use crate::replaying::take_plan;
use crate::solving::stopped;
use crate::work::too_wide;
use rob_cert::{Cert, CertErr, Status, Worst, read_cert};
use rob_commands::Ended;
use rob_commands::reply::{Reply, certificate_rule, fault, no_plan};
use rob_dualize::Elaborated;
use rob_dualize::numbers::whole;
use rob_model::{Model, Plan, Spot, Where, find_form};
use rob_number::{Exact, Ledger, Memory, Wide};
use rob_report::worst_text;
use rob_words::Route;
use rob_worst::slack::slack;
use rob_worst::worst;
use std::alloc::Global;

/// The answer of `worst` for the text of a certificate and the name of a form.
pub fn search_text<N: Exact + Drop, L: Ledger>(
    alloc: Global,
    model: &Model<N>,
    elaborated: Elaborated,
    certificate: &[u8],
    name: &[u8],
    ledger: &mut L,
) -> Result<Reply, Memory>
    requires valid { IsValid N.value model.now }
    requires named { IsNamed (robust N.value model.now) }
    requires elaborated { IsElaborated N.limit (robust N.value model.now)
        elaborated.forms.now elaborated.set.now }
    requires short { length certificate.now ≤ 2 ^ 30 }
    ensures answers { IfOk result (AnswersSearch N.limit
        (count (L.wides ledger.old) (L.wides ledger.new))
        (robust N.value model.now) certificate.now name.now) }
    ensures counted { L.wides ledger.old ≤ L.wides ledger.new }
{
    match read_cert(alloc, certificate, model, ledger) {
        Ok(cert) => search_cert(alloc, model, elaborated, cert, name, ledger),
        Err(CertErr::Rule(rule, number)) => certificate_rule(alloc, rule, number),
        Err(CertErr::Memory) => Err(Memory),
    }
}

/// The answer for a certificate, which isn't checked. One that claims an infeasible model has no plan.
fn search_cert<N: Exact + Drop, L: Ledger>(
    alloc: Global,
    model: &Model<N>,
    elaborated: Elaborated,
    cert: Cert<N>,
    name: &[u8],
    ledger: &mut L,
) -> Result<Reply, Memory>
    requires valid { IsValid N.value model.now }
    requires elaborated { IsElaborated N.limit (robust N.value model.now)
        elaborated.forms.now elaborated.set.now }
    requires shape { HasShape (robust N.value model.now) (certificate_of N.value cert) }
    ensures answers { IfOk result (AnswersSearched N.limit
        (count (L.wides ledger.old) (L.wides ledger.new))
        (robust N.value model.now) (certificate_of N.value cert) name.now) }
    ensures counted { L.wides ledger.old ≤ L.wides ledger.new }
{
    let status = cert.status;
    let plan = take_plan(cert);
    match status {
        Status::Infeasible => no_plan(alloc),
        Status::Optimal => search_plan(alloc, model, elaborated, &plan, name, ledger),
        Status::Unbounded => search_plan(alloc, model, elaborated, &plan, name, ledger),
    }
}

/// The answer at a plan with its bound, for each certificate that has them.
fn search_plan<N: Exact + Drop, L: Ledger>(
    alloc: Global,
    model: &Model<N>,
    elaborated: Elaborated,
    plan: &Plan<N>,
    name: &[u8],
    ledger: &mut L,
) -> Result<Reply, Memory>
    requires valid { IsValid N.value model.now }
    requires elaborated { IsElaborated N.limit (robust N.value model.now)
        elaborated.forms.now elaborated.set.now }
    requires size { length plan.now.columns ≡ column_count (robust N.value model.now) }
    ensures answers { IfOk result (λ reply. (c : Certificate) → plan_of N.value plan.now
        ≡ certificate_vector c
        → AnswersPlanned N.limit (count (L.wides ledger.old) (L.wides ledger.new))
        (robust N.value model.now) c name.now reply) }
    ensures counted { L.wides ledger.old ≤ L.wides ledger.new }
{
    match find_form(model, name) {
        Some(form) => search_form(alloc, model, elaborated, form, plan, ledger),
        None => fault(alloc, Ended::NoRow, b"no row ", name),
    }
}

/// The answer for a form, which has a name, at a plan with its bound.
fn search_form<N: Exact + Drop, L: Ledger>(
    alloc: Global,
    model: &Model<N>,
    elaborated: Elaborated,
    form: u32,
    plan: &Plan<N>,
    ledger: &mut L,
) -> Result<Reply, Memory>
    requires valid { IsValid N.value model.now }
    requires elaborated { IsElaborated N.limit (robust N.value model.now)
        elaborated.forms.now elaborated.set.now }
    requires form_in { form < length (model_forms (robust N.value model.now)) }
    requires size { length plan.now.columns ≡ column_count (robust N.value model.now) }
    ensures answers { IfOk result (λ reply. (c : Certificate) → plan_of N.value plan.now
        ≡ certificate_vector c
        → AnswersSought N.limit (count (L.wides ledger.old) (L.wides ledger.new))
        (robust N.value model.now) c form reply) }
    ensures counted { L.wides ledger.old ≤ L.wides ledger.new }
{
    match worst(alloc, elaborated.forms, elaborated.set, form, plan, ledger) {
        Ok(worst) => with_slack(alloc, model, form, &worst, ledger),
        Err(stop) => stopped(alloc, model, Route::Dual, stop),
    }
}

/// The answer for what the search finds. The slack of a worst scenario may be wide.
fn with_slack<N: Exact, L: Ledger>(
    alloc: Global,
    model: &Model<N>,
    form: u32,
    worst: &Worst<N>,
    ledger: &mut L,
) -> Result<Reply, Memory>
    requires valid { IsValid N.value model.now }
    requires form_in { form < length (model_forms (robust N.value model.now)) }
    requires scale { HasScale N.value worst.now }
    requires within { HasConstantWithin N.limit worst.now }
    ensures worst { IfOk result (RepliesWorst N.limit (robust N.value model.now) form
        (count (L.wides ledger.old) (L.wides ledger.new)) N.value worst.now) }
    ensures counted { L.wides ledger.old ≤ L.wides ledger.new }
{
    match worst {
        Worst::At {
            scale,
            peak,
            constant,
            ..
        } => match slack(*scale, *peak, *constant, ledger) {
            Ok(slack) => printed(alloc, model, form, worst, slack),
            Err(Wide) => too_wide(alloc, model, Spot::Sum(Where::Cost(form), 0)),
        },
        Worst::Along { .. } => printed(alloc, model, form, worst, whole(0)),
    }
}

/// The answer with a worst case and its slack.
fn printed<N: Exact>(
    alloc: Global,
    model: &Model<N>,
    form: u32,
    worst: &Worst<N>,
    slack: N,
) -> Result<Reply, Memory>
    requires valid { IsValid N.value model.now }
    requires form_in { form < length (model_forms (robust N.value model.now)) }
    ensures printed { IfOk result (Replies Ended.Printed
        (worst_of (robust N.value model.now) form N.value worst.now (N.value slack))) }
{
    let text = worst_text(alloc, model, form, worst, slack)?;
    Ok(Reply {
        ended: Ended::Printed,
        text,
    })
}
