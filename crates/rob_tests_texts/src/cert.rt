//! Certificates of a model, read and written, and texts that are none.

ghost use Rattle.rob_cert.specs.Shape.{HasShape};
ghost use Rattle.rob_cert.specs.View.{certificate_of};
ghost use Rattle.rob_meaning.specs.Named.{IsNamed};
ghost use Rattle.rob_model.specs.Valid.{IsValid};
ghost use Rattle.rob_model.specs.View.{robust};

use rob_case::Trouble;
use rob_case::numbers::{put, put_all};
use rob_case::text::{broken, said};
use rob_cert::{Cert, CertErr, Cover, read_cert, write_cert};
use rob_model::Model;
use rob_number::{Exact, Tally};
use std::alloc::Global;

/// The certificate that a text is, or the rule that it breaks and the line.
fn read<N: Exact>(
    alloc: Global,
    model: &Model<N>,
    text: &[u8],
) -> Result<Result<(), (u8, u32)>, Trouble>
    requires valid { IsValid N.value model.now }
    requires named { IsNamed (robust N.value model.now) }
{
    if text.len() > 1 << 30 {
        return Err(Trouble::Line);
    }
    match read_cert(alloc, text, model, &mut Tally::new()) {
        Ok(_) => Ok(Ok(())),
        Err(CertErr::Rule(rule, line)) => Ok(Err((rule, line))),
        Err(CertErr::Memory) => Err(Trouble::Memory),
    }
}

/// Whether a text is a certificate, and is written again; or the parts that its lines are read as.
pub(crate) fn certificate<N: Exact>(
    alloc: Global,
    model: &Model<N>,
    text: &[u8],
    parts: bool,
) -> Result<String, Trouble>
    requires valid { IsValid N.value model.now }
    requires named { IsNamed (robust N.value model.now) }
{
    if text.len() > 1 << 30 {
        return Err(Trouble::Line);
    }
    match read_cert(alloc, text, model, &mut Tally::new()) {
        Ok(cert) => of_cert(alloc, model, &cert, text, parts),
        Err(CertErr::Rule(rule, line)) => broken(alloc, rule, line),
        Err(CertErr::Memory) => Err(Trouble::Memory),
    }
}

/// What is told of the certificate that a text is.
fn of_cert<N: Exact>(
    alloc: Global,
    model: &Model<N>,
    cert: &Cert<N>,
    text: &[u8],
    parts: bool,
) -> Result<String, Trouble>
    requires valid { IsValid N.value model.now }
    requires shape { HasShape (robust N.value model.now) (certificate_of N.value cert.now) }
{
    if parts {
        return told(alloc, cert);
    }
    let again = write_cert(alloc, model, cert)?;
    said(
        alloc,
        if again.bytes() == text {
            "written again"
        } else {
            "written otherwise"
        },
    )
}

/// The length of the first proper prefix that is anything but a text that lacks its next line.
fn first_other<N: Exact>(
    alloc: Global,
    model: &Model<N>,
    text: &[u8],
) -> Result<Option<usize>, Trouble>
    requires valid { IsValid N.value model.now }
    requires named { IsNamed (robust N.value model.now) }
{
    let mut line = 1u32;
    for n in 0..text.len() {
        if read(alloc, model, &text[..n])? != Err((31, line)) {
            return Ok(Some(n));
        }
        if text[n] == b'\n' {
            line = line.saturating_add(1);
        }
    }
    Ok(None)
}

/// Whether each proper prefix of a text lacks its next line.
pub(crate) fn prefixes<N: Exact>(
    alloc: Global,
    model: &Model<N>,
    text: &[u8],
) -> Result<String, Trouble>
    requires valid { IsValid N.value model.now }
    requires named { IsNamed (robust N.value model.now) }
{
    let other = first_other(alloc, model, text)?;
    Ok(format!(in alloc; "{other:?}")?)
}

/// The parts that the lines of a certificate are read as.
fn told<N: Exact>(alloc: Global, cert: &Cert<N>) -> Result<String, Trouble> {
    let status = cert.status;
    let items = cert.items.items().len();
    let mut answer = format!(in alloc; "{status:?}, {items} items, scale")?;
    put(alloc, &mut answer, cert.scale)?;
    answer.push_str(", plan")?;
    put_all(alloc, &mut answer, cert.plan.items())?;
    answer.push_str(", bound of the step")?;
    put(alloc, &mut answer, cert.step_bound)?;
    put_covers(alloc, &mut answer, ", covers", cert.covers.items())?;
    put_covers(alloc, &mut answer, ", holds", cert.holds.items())?;
    Ok(answer)
}

/// Appends the form and the set row of each.
fn put_covers<N: Exact>(
    alloc: Global,
    text: &mut String,
    word: &str,
    covers: &[Cover<N>],
) -> Result<(), Trouble> {
    text.push_str(word)?;
    for cover in covers {
        let form = cover.form;
        let row = cover.set_row;
        text.push_str(format!(in alloc; " {form}:{row}")?.as_str())?;
    }
    Ok(())
}
