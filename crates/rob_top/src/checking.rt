//! The answer of `check`.

ghost use Rattle.std.specs.Prelude.{◌≤◌, ◌^◌, length, IfOk};
ghost use Rattle.rob_cert.specs.Shape.{HasShape};
ghost use Rattle.rob_cert.specs.View.{certificate_of, status_of};
ghost use Rattle.rob_elab.specs.Elaborated.{IsElaborated};
ghost use Rattle.rob_meaning.specs.Named.{IsNamed};
ghost use Rattle.rob_model.specs.Valid.{IsValid};
ghost use Rattle.rob_model.specs.View.{robust};
ghost use Rattle.rob_report.specs.Places.{IsPlaceOf};
ghost use Rattle.rob_report.specs.Spots.{rejected_line};
ghost use Rattle.rob_commands.specs.Answers.{accepted_by};
ghost use Rattle.rob_top.specs.Calls.{count};
ghost use Rattle.rob_commands.specs.Replies.{Replies};
ghost use Rattle.rob_top.specs.Work.{AnswersCertificate, AnswersFile};

use crate::work::too_wide;
use rob_cert::spelling::put_number;
use rob_cert::{Cert, CertErr, Status, read_cert};
use rob_check::{Verdict, check};
use rob_commands::Ended;
use rob_commands::reply::{Reply, certificate_rule, line};
use rob_dualize::Elaborated;
use rob_model::{Model, Place, Spot};
use rob_number::{Exact, Ledger, Memory, Text};
use rob_report::place_text;
use std::alloc::Global;

/// The answer of `check` for the text of a certificate.
pub fn check_text<N: Exact + Drop, L: Ledger>(
    alloc: Global,
    model: &Model<N>,
    elaborated: Elaborated,
    text: &[u8],
    ledger: &mut L,
) -> Result<Reply, Memory>
    requires valid { IsValid N.value model.now }
    requires named { IsNamed (robust N.value model.now) }
    requires elaborated { IsElaborated N.limit (robust N.value model.now)
        elaborated.forms.now elaborated.set.now }
    requires short { length text.now ≤ 2 ^ 30 }
    ensures answers { IfOk result (AnswersFile N.limit
        (count (L.wides ledger.old) (L.wides ledger.new))
        (robust N.value model.now) text.now) }
    ensures counted { L.wides ledger.old ≤ L.wides ledger.new }
{
    match read_cert(alloc, text, model, ledger) {
        Ok(cert) => check_cert(alloc, model, elaborated, &cert, ledger),
        Err(CertErr::Rule(rule, number)) => certificate_rule(alloc, rule, number),
        Err(CertErr::Memory) => Err(Memory),
    }
}

/// The answer of `check` for a certificate.
fn check_cert<N: Exact, L: Ledger>(
    alloc: Global,
    model: &Model<N>,
    elaborated: Elaborated,
    cert: &Cert<N>,
    ledger: &mut L,
) -> Result<Reply, Memory>
    requires valid { IsValid N.value model.now }
    requires elaborated { IsElaborated N.limit (robust N.value model.now)
        elaborated.forms.now elaborated.set.now }
    requires shape { HasShape (robust N.value model.now) (certificate_of N.value cert.now) }
    ensures answers { IfOk result (AnswersCertificate N.limit
        (count (L.wides ledger.old) (L.wides ledger.new))
        (robust N.value model.now) (certificate_of N.value cert.now)) }
    ensures counted { L.wides ledger.old ≤ L.wides ledger.new }
{
    match check(model, elaborated.forms, elaborated.set, cert, ledger) {
        Verdict::Accepted => accepted(alloc, cert.status, cert.value),
        Verdict::Rejected(place) => rejected(alloc, model, place),
        Verdict::TooWide(place) => too_wide(alloc, model, Spot::Check(place)),
    }
}

/// The answer for a certificate or a branch tree that proves, and claims the status and the value.
pub fn accepted<N: Exact>(alloc: Global, status: Status, value: N) -> Result<Reply, Memory>
    ensures accepted { IfOk result (Replies Ended.Accepted
        (accepted_by (status_of status) (N.value value))) }
{
    match status {
        Status::Optimal => {
            let mut spelled = Text::new(alloc);
            put_number(&mut spelled, value)?;
            line(
                alloc,
                Ended::Accepted,
                b"accepted optimal ",
                spelled.bytes(),
            )
        }
        Status::Infeasible => line(alloc, Ended::Accepted, b"accepted ", b"infeasible"),
        Status::Unbounded => line(alloc, Ended::Accepted, b"accepted ", b"unbounded"),
    }
}

/// The answer for a certificate that doesn't prove.
fn rejected<N: Exact>(alloc: Global, model: &Model<N>, place: Place) -> Result<Reply, Memory>
    requires valid { IsValid N.value model.now }
    requires named { IsPlaceOf (robust N.value model.now) place }
    ensures rejected { IfOk result (Replies (Ended.Rejected place)
        (rejected_line (robust N.value model.now) place)) }
{
    let text = place_text(alloc, model, &place)?;
    Ok(Reply {
        ended: Ended::Rejected(place),
        text,
    })
}
