//! The answers of a certificate that was found, and of weights that show an empty set.

ghost use Rattle.std.specs.Prelude.{◌≡◌, ◌++◌, IfOk, length};
ghost use Rattle.rob_cert.specs.Shape.{HasShape};
ghost use Rattle.rob_cert.specs.Spelling.{cert_text};
ghost use Rattle.rob_cert.specs.View.{certificate_of, status_of};
ghost use Rattle.rob_meaning.specs.SetRows.{set_rows};
ghost use Rattle.rob_model.specs.Valid.{IsValid};
ghost use Rattle.rob_model.specs.View.{robust};
ghost use Rattle.rob_report.specs.Report.{report_of};
ghost use Rattle.rob_report.specs.Spots.{empty_set_lines};
ghost use Rattle.rob_commands.specs.Answers.{cells_line};
ghost use Rattle.rob_commands.specs.Replies.{Replies, ended_of};

use crate::ended::Ended;
use crate::reply::Reply;
use itoa::Buffer;
use rob_cert::{Cert, Status, write_cert};
use rob_model::Model;
use rob_number::{Exact, List, Memory, Text};
use rob_report::{empty_set_text, put_report};
use std::alloc::Global;

/// A certificate, as it is printed.
pub fn proved<N: Exact>(alloc: Global, model: &Model<N>, cert: &Cert<N>) -> Result<Reply, Memory>
    requires valid { IsValid N.value model.now }
    requires shape { HasShape (robust N.value model.now) (certificate_of N.value cert.now) }
    ensures certificate { IfOk result (Replies (ended_of (status_of cert.now.status))
        (cert_text (robust N.value model.now) (certificate_of N.value cert.now))) }
{
    let text = write_cert(alloc, model, cert)?;
    Ok(Reply {
        ended: ended_by(cert.status),
        text,
    })
}

/// The answer for a status.
pub fn ended_by(status: Status) -> Ended
    ensures status { result ≡ ended_of (status_of status) }
{
    match status {
        Status::Optimal => Ended::Optimal,
        Status::Infeasible => Ended::Infeasible,
        Status::Unbounded => Ended::Unbounded,
    }
}

/// The answer where no scenario is admitted.
pub fn empty_set<N: Exact>(
    alloc: Global,
    model: &Model<N>,
    weights: List<i64>,
) -> Result<Reply, Memory>
    requires valid { IsValid N.value model.now }
    requires count { length weights ≡ length (set_rows (robust N.value model.now)) }
    ensures weights { IfOk result (Replies (Ended.EmptySet weights)
        (empty_set_lines (robust N.value model.now) weights)) }
{
    let text = empty_set_text(alloc, model, weights.items())?;
    Ok(Reply {
        ended: Ended::EmptySet(weights),
        text,
    })
}

/// The number of cells, and the report of a certificate.
pub fn with_cells<N: Exact>(
    alloc: Global,
    model: &Model<N>,
    cells: u32,
    cert: &Cert<N>,
) -> Result<Reply, Memory>
    requires valid { IsValid N.value model.now }
    requires shape { HasShape (robust N.value model.now) (certificate_of N.value cert.now) }
    ensures report { IfOk result (Replies (ended_of (status_of cert.now.status))
        (cells_line cells ++ report_of (robust N.value model.now)
        (certificate_of N.value cert.now))) }
{
    let mut text = Text::new(alloc);
    text.push(b"cells ")?;
    text.push(Buffer::new().format(cells).as_bytes())?;
    text.push(b"\n")?;
    put_report(model, cert, &mut text)?;
    Ok(Reply {
        ended: ended_by(cert.status),
        text,
    })
}
