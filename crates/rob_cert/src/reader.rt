//! The certificate that a text is.

ghost use Rattle.std.specs.Prelude.{◌≡◌, ◌+◌, ◌^◌, ◌<◌, ◌≤◌, length, map, IfOk, IfErr};
ghost use Rattle.rob_number.specs.Counts.{NeverFell};
ghost use Rattle.rob_meaning.specs.Certificates.{Certificate};
ghost use Rattle.rob_meaning.specs.Named.{AreDistinct, IsNamed};
ghost use Rattle.rob_model.specs.Valid.{IsValid};
ghost use Rattle.rob_model.specs.View.{robust};
ghost use Rattle.rob_cert.specs.Apart.{FitsLines, IsNamedInWords};
ghost use Rattle.rob_cert.specs.Causes.{HasCause};
ghost use Rattle.rob_cert.specs.Lines.{lines_of};
ghost use Rattle.rob_cert.specs.NamesView.{naming};
ghost use Rattle.rob_cert.specs.ReadSoFar.{Extends, Fails};
ghost use Rattle.rob_cert.specs.Reading.{start};
ghost use Rattle.rob_cert.specs.Spelling.{lines_text, naming_of};
ghost use Rattle.rob_cert.specs.View.{certificate_of, cover_of, item_of, status_of};
ghost use Rattle.rob_cert.specs.Whole.{AreGoodLists, EndsWith, HasSizes, IsMoved, IsTextOf, IsWellRead, Reads, vector_lines};

use crate::certificate::{Cert, Cover, Item, Status};
use crate::entries::Cursor;
use crate::error::CertErr;
use crate::first_lines::{Front, read_front};
use crate::kind::{Multipliers, Vector};
use crate::names::Names;
use crate::part::{covers_part, end_part, entries_part, items_part};
use rob_model::numbers::zero;
use rob_model::{Model, Scenario};
use rob_number::{Exact, Ledger, List};
use std::alloc::Global;

/// The vectors of a certificate, and what is left behind their lines.
#[derive(Debug, Drop)]
struct Vectors<'a, N> {
    pub inside: Vec<N>,
    pub plan: Vec<N>,
    /// The direction with its bound.
    pub moved: Vec<N>,
    pub at: Cursor<'a>,
}

/// The lists of a certificate.
#[derive(Debug, Drop)]
struct Lists<N> {
    pub covers: List<Cover<N>>,
    pub holds: List<Cover<N>>,
    pub items: List<Item<N>>,
}

/// A direction and its bound.
#[derive(Debug, Drop)]
struct Direction<N> {
    pub step: Vec<N>,
    pub bound: N,
}

/// The vectors of a certificate.
fn read_vectors<'a, N: Exact, L: Ledger>(
    alloc: Global,
    status: Status,
    names: &Names,
    at: Cursor<'a>,
    ledger: &mut L,
) -> Result<Vectors<'a, N>, CertErr>
    requires few { length names.now.columns < 2 ^ 32 }
    requires small { at.line + length at.rest.now < 2 ^ 32 }
    ensures read { IfOk result (λ r. Extends (naming names.now) N.limit
        (status_of status) 3 6 at.entry.rest.now at.entry.line
        (vector_lines (map N.value r.inside.items) (map N.value r.plan.items)
        (map N.value r.moved.items)) r.at.rest.now r.at.line) }
    ensures sizes { IfOk result (λ r. HasSizes (naming names.now) (status_of status)
        (map N.value r.inside.items) (map N.value r.plan.items) (map N.value r.moved.items)) }
    ensures small { IfOk result (λ r. r.at.line + length r.at.rest.now
        ≤ at.entry.line + length at.entry.rest.now) }
    ensures fault { IfErr result (λ e. Fails (naming names.now) N.limit
        (status_of status) 3 at.entry.rest.now at.entry.line e) }
    ensures counted { NeverFell L.ops L.wides ledger.old ledger.new }
{
    let inside = entries_part(alloc, status, Vector::Inside, names, at, ledger)?;
    let plan = entries_part(alloc, status, Vector::Plan, names, inside.at, ledger)?;
    let moved = entries_part(alloc, status, Vector::Move, names, plan.at, ledger)?;
    Ok(Vectors {
        inside: inside.numbers,
        plan: plan.numbers,
        moved: moved.numbers,
        at: moved.at,
    })
}

/// The lists of a certificate, to the end of the text.
fn read_lists<N: Exact, L: Ledger>(
    alloc: Global,
    status: Status,
    names: &Names,
    at: Cursor<'_>,
    ledger: &mut L,
) -> Result<Lists<N>, CertErr>
    requires distinct { AreDistinct names.now.forms }
    requires few { (length names.now.forms < 2 ^ 32) × (length names.now.set_rows < 2 ^ 32) }
    requires small { at.line + length at.rest.now < 2 ^ 32 }
    ensures read { IfOk result (λ r. EndsWith (naming names.now) N.limit
        (status_of status) at.entry.rest.now at.entry.line
        (map (cover_of N.value) r.covers) (map (cover_of N.value) r.holds)
        (map (item_of N.value) r.items)) }
    ensures good { IfOk result (λ r. AreGoodLists (naming names.now) (status_of status)
        (map (cover_of N.value) r.covers) (map (cover_of N.value) r.holds)
        (map (item_of N.value) r.items)) }
    ensures fault { IfErr result (λ e. Fails (naming names.now) N.limit
        (status_of status) 6 at.entry.rest.now at.entry.line e) }
    ensures counted { NeverFell L.ops L.wides ledger.old ledger.new }
{
    let covers = covers_part(alloc, status, Multipliers::Covers, names, at, ledger)?;
    let holds = covers_part(alloc, status, Multipliers::Holds, names, covers.at, ledger)?;
    let items = items_part(alloc, status, names, holds.at, ledger)?;
    end_part(names, status, items.at)?;
    Ok(Lists {
        covers: covers.list,
        holds: holds.list,
        items: items.list,
    })
}

/// A direction's numbers without the last, which is its bound; where there are none the bound is 0.
fn split_bound<N: Exact, L: Ledger>(mut moved: Vec<N>, ledger: &mut L) -> Direction<N>
    ensures moved { IsMoved (map N.value moved.items) (map N.value result.step.items)
        (N.value result.bound) }
    ensures counted { NeverFell L.ops L.wides ledger.old ledger.new }
{
    match moved.pop() {
        None => Direction {
            step: moved,
            bound: zero(ledger),
        },
        Some(bound) => Direction { step: moved, bound },
    }
}

/// The certificate that has the parts.
fn assemble<N: Exact>(
    front: Front<'_, N>,
    inside: Vec<N>,
    plan: Vec<N>,
    direction: Direction<N>,
    lists: Lists<N>,
) -> Cert<N>
    ensures parts { certificate_of N.value result ≡ record {
      status = status_of front.entry.status;
      value = N.value front.entry.value;
      scale = N.value front.entry.scale;
      inside = map N.value inside.items;
      plan = map N.value plan.items;
      step = map N.value direction.step.items;
      step_bound = N.value direction.bound;
      covers = map (cover_of N.value) lists.covers;
      holds = map (cover_of N.value) lists.holds;
      items = map (item_of N.value) lists.items;
    } }
{
    Cert {
        status: front.status,
        value: front.value,
        scale: front.scale,
        inside: Scenario {
            values: List::from(inside),
        },
        plan: List::from(plan),
        step: List::from(direction.step),
        step_bound: direction.bound,
        covers: lists.covers,
        holds: lists.holds,
        items: lists.items,
    }
}

/// The certificate that a text is, by the names of a model.
fn read_text<N: Exact, L: Ledger>(
    alloc: Global,
    names: &Names,
    text: &[u8],
    ledger: &mut L,
) -> Result<Cert<N>, CertErr>
    requires distinct { AreDistinct names.now.forms }
    requires few { (length names.now.forms < 2 ^ 32) × (length names.now.set_rows < 2 ^ 32)
        × (length names.now.columns < 2 ^ 32) }
    requires small { length text.now ≤ 2 ^ 30 }
    ensures read { IfOk result (λ cert. text.now
        ≡ lines_text (naming names.now) (lines_of (certificate_of N.value cert))) }
    ensures shape { IfOk result (λ cert. IsWellRead (naming names.now)
        (certificate_of N.value cert)) }
    ensures fault { IfErr result (λ e. HasCause (naming names.now) N.limit start text.now 1 e) }
    ensures counted { NeverFell L.ops L.wides ledger.old ledger.new }
{
    let front = read_front(text, ledger)?;
    let vectors = read_vectors(alloc, front.status, names, front.at, ledger)?;
    let lists = read_lists(alloc, front.status, names, vectors.at, ledger)?;
    let direction = split_bound(vectors.moved, ledger);
    Ok(assemble(front, vectors.inside, vectors.plan, direction, lists))
}

/// The certificate for the model that a text is: each text is that of one certificate at most. The text has lines of
/// words with one space between two; the first bad line decides, and on it the lowest rule.
pub fn read_cert<N: Exact, L: Ledger>(
    alloc: Global,
    text: &[u8],
    model: &Model<N>,
    ledger: &mut L,
) -> Result<Cert<N>, CertErr>
    requires valid { IsValid N.value model.now }
    requires named { IsNamed (robust N.value model.now) }
    requires small { length text.now ≤ 2 ^ 30 }
    ensures read { IfOk result (λ cert. IsTextOf (robust N.value model.now)
        (certificate_of N.value cert) text.now) }
    ensures fits { IfOk result (λ cert. FitsLines N.limit (robust N.value model.now)
        (certificate_of N.value cert)) }
    ensures fault { IfErr result (λ e. HasCause
        (naming_of (robust N.value model.now)) N.limit start text.now 1 e) }
    // Where no name has a space or a line's end, each text of a certificate with numbers that fit is read as that
    // certificate.
    ensures exact { (c : Certificate) → IsNamedInWords (robust N.value model.now)
        → IsTextOf (robust N.value model.now) c text.now
        → FitsLines N.limit (robust N.value model.now) c → Reads N.value c result }
    ensures counted { NeverFell L.ops L.wides ledger.old ledger.new }
{
    match Names::of(alloc, model) {
        Err(memory) => Err(CertErr::from(memory)),
        Ok(names) => read_text(alloc, &names, text, ledger),
    }
}
