//! The answer of `replay`.

ghost use Rattle.std.specs.Prelude.{◌≡◌, ◌≤◌, ◌^◌, length, map, IfOk};
ghost use Rattle.rob_cert.specs.View.{certificate_of};
ghost use Rattle.rob_meaning.specs.Certificates.{Certificate};
ghost use Rattle.rob_meaning.specs.Named.{IsNamed};
ghost use Rattle.rob_model.specs.Valid.{IsValid};
ghost use Rattle.rob_model.specs.View.{plan_of, robust};
ghost use Rattle.rob_replay.specs.View.{line_of};
ghost use Rattle.rob_report.specs.Tables.{table_of};
ghost use Rattle.rob_top.specs.Calls.{count};
ghost use Rattle.rob_commands.specs.Replies.{Replies};
ghost use Rattle.rob_top.specs.Work.{AnswersPlan, AnswersReplay, AnswersScenarios};

use crate::work::too_wide;
use rob_cert::{Cert, CertErr, Status, read_cert};
use rob_commands::Ended;
use rob_commands::reply::{Reply, broken_rule, certificate_rule, no_plan};
use rob_model::{Model, Plan, Spot};
use rob_number::{Exact, Ledger, Memory};
use rob_replay::{ReplayErr, Table, replay};
use rob_report::table_text;
use std::alloc::Global;

/// The answer of `replay` for the text of a certificate and that of a scenario file.
pub fn replay_text<N: Exact + Drop, L: Ledger>(
    alloc: Global,
    model: &Model<N>,
    certificate: &[u8],
    text: &[u8],
    ledger: &mut L,
) -> Result<Reply, Memory>
    requires valid { IsValid N.value model.now }
    requires named { IsNamed (robust N.value model.now) }
    requires short { length certificate.now ≤ 2 ^ 30 }
    ensures answers { IfOk result (AnswersReplay N.limit
        (count (L.wides ledger.old) (L.wides ledger.new))
        (robust N.value model.now) certificate.now text.now) }
    ensures counted { L.wides ledger.old ≤ L.wides ledger.new }
{
    match read_cert(alloc, certificate, model, ledger) {
        Ok(cert) => replay_cert(alloc, model, cert, text, ledger),
        Err(CertErr::Rule(rule, number)) => certificate_rule(alloc, rule, number),
        Err(CertErr::Memory) => Err(Memory),
    }
}

/// The answer for a certificate, which isn't checked. One that claims an infeasible model has no plan.
fn replay_cert<N: Exact + Drop, L: Ledger>(
    alloc: Global,
    model: &Model<N>,
    cert: Cert<N>,
    text: &[u8],
    ledger: &mut L,
) -> Result<Reply, Memory>
    requires valid { IsValid N.value model.now }
    ensures answers { IfOk result (AnswersPlan N.limit
        (count (L.wides ledger.old) (L.wides ledger.new))
        (robust N.value model.now) (certificate_of N.value cert) text.now) }
    ensures counted { L.wides ledger.old ≤ L.wides ledger.new }
{
    let status = cert.status;
    let plan = take_plan(cert);
    match status {
        Status::Infeasible => no_plan(alloc),
        Status::Optimal => replay_plan(alloc, model, &plan, text, ledger),
        Status::Unbounded => replay_plan(alloc, model, &plan, text, ledger),
    }
}

/// The plan of a certificate, with its value as the bound. What else is in it is let go of here alone.
pub fn take_plan<N: Exact + Drop>(cert: Cert<N>) -> Plan<N>
    ensures plan { result ≡ record { columns = cert.plan; bound = cert.value } }
{
    Plan {
        columns: cert.plan,
        bound: cert.value,
    }
}

/// The answer at a plan with its bound, for each certificate that has them.
fn replay_plan<N: Exact, L: Ledger>(
    alloc: Global,
    model: &Model<N>,
    plan: &Plan<N>,
    text: &[u8],
    ledger: &mut L,
) -> Result<Reply, Memory>
    requires valid { IsValid N.value model.now }
    ensures answers { IfOk result (λ reply. (c : Certificate)
        → c.plan ≡ plan_of N.value plan.now → c.value ≡ N.value plan.now.bound
        → AnswersScenarios N.limit (count (L.wides ledger.old) (L.wides ledger.new))
        (robust N.value model.now) c text.now reply) }
    ensures counted { L.wides ledger.old ≤ L.wides ledger.new }
{
    match replay(alloc, model, plan, text, ledger) {
        Ok(table) => printed(alloc, model, &table),
        Err(ReplayErr::Rule(rule, number)) => {
            broken_rule(
                alloc,
                Ended::Scenarios(rule, number),
                b"scenarios ",
                rule,
                number,
            )
        }
        Err(ReplayErr::Wide(number)) => too_wide(alloc, model, Spot::Replay(number)),
        Err(ReplayErr::Memory) => Err(Memory),
    }
}

/// The answer with a table.
fn printed<N: Exact>(alloc: Global, model: &Model<N>, table: &Table<N>) -> Result<Reply, Memory>
    ensures printed { IfOk result (Replies Ended.Printed
        (table_of (robust N.value model.now) (map (line_of N.value) table.now.lines))) }
{
    let text = table_text(alloc, model, table)?;
    Ok(Reply {
        ended: Ended::Printed,
        text,
    })
}
