//! The first lines of a certificate's text.

ghost use Rattle.std.specs.Prelude.{◌≡◌, ◌≢◌, ◌+◌, ◌^◌, ◌<◌, ◌≤◌, ◌++◌, ◌∷◌, [], ℕ, length, IfOk, IfErr, MatchOption, List};
ghost use Rattle.rob_number.specs.Counts.{NeverFell};
ghost use Rattle.rob_meaning.specs.Certificates.{Status as StatusOf, infeasible};
ghost use Rattle.rob_meaning.specs.Places.{0ℚ, 1ℚ};
ghost use Rattle.rob_cert.specs.Causes.{HasCause};
ghost use Rattle.rob_cert.specs.FirstLines.{HasBoundFault, bound_line, status_bytes};
ghost use Rattle.rob_cert.specs.Lines.{bound_lines, scale_line, status_line, value_line};
ghost use Rattle.rob_cert.specs.ReadSoFar.{SoFar};
ghost use Rattle.rob_cert.specs.Kinds.{claims};
ghost use Rattle.rob_cert.specs.Reading.{behind, start};
ghost use Rattle.rob_cert.specs.ReaderLines.{IsSection};
ghost use Rattle.rob_cert.specs.Spelling.{Naming};
ghost use Rattle.rob_cert.specs.View.{status_of};

use crate::certificate::Status;
use crate::cursor::{split_byte, two_words};
use crate::entries::Cursor;
use crate::entry::next_of;
use crate::error::{CertErr, Offence};
use crate::kind::Bound;
use crate::number::read_number;
use rob_model::numbers::{one, zero};
use rob_number::{Exact, Ledger};

/// A status that was read, and what is left behind its line.
#[derive(Clone, Copy, Debug)]
pub struct Claim<'a> {
    pub status: Status,
    pub rest: &'a [u8],
}

/// A number that was read, and what is left behind its line.
#[derive(Clone, Copy, Debug)]
pub struct Single<'a, N> {
    pub number: N,
    pub at: Cursor<'a>,
}

/// The value and the scale, and what is left behind their lines.
#[derive(Clone, Copy, Debug)]
pub struct Bounds<'a, N> {
    pub value: N,
    pub scale: N,
    pub at: Cursor<'a>,
}

/// The first lines, and what is left behind them.
#[derive(Clone, Copy, Debug)]
pub struct Front<'a, N> {
    pub status: Status,
    pub value: N,
    pub scale: N,
    pub at: Cursor<'a>,
}

/// The status that a line tells.
fn status_of_line(line: &[u8]) -> Option<Status>
    ensures status { MatchOption result ((s : StatusOf) → line.now ≡ status_bytes s → ⊥)
        (λ s. line.now ≡ status_bytes (status_of s)) }
{
    if line == b"certificate optimal".as_slice() {
        Some(Status::Optimal)
    } else if line == b"certificate infeasible".as_slice() {
        Some(Status::Infeasible)
    } else if line == b"certificate unbounded".as_slice() {
        Some(Status::Unbounded)
    } else {
        None
    }
}

/// The status line at the front of a text.
fn read_status(text: &[u8]) -> Option<Claim<'_>>
    ensures status { MatchOption result
        ((s : StatusOf) (rest : List ℕ) → text.now ≡ status_bytes s ++ 10 ∷ rest → ⊥)
        (λ c. text.now ≡ status_bytes (status_of c.status) ++ 10 ∷ c.rest.now) }
{
    match split_byte(text, b'\n') {
        None => None,
        Some(split) => match status_of_line(split.front) {
            None => None,
            Some(status) => Some(Claim {
                status,
                rest: split.back,
            }),
        },
    }
}

/// The line of the value or of the scale.
fn read_single<'a, N: Exact, L: Ledger>(
    which: Bound,
    at: Cursor<'a>,
    ledger: &mut L,
) -> Result<Single<'a, N>, Offence>
    requires small { at.line + length at.rest.now < 2 ^ 32 }
    ensures read { (names : Naming)
        → IfOk result (λ r. IsSection names at.entry.rest.now at.entry.line
        (bound_line which (N.value r.number) ∷ []) r.at.rest.now r.at.line) }
    ensures small { IfOk result (λ r. r.at.line + length r.at.rest.now
        ≤ at.entry.line + length at.entry.rest.now) }
    ensures fault { IfErr result (λ o. HasBoundFault N.limit which at.entry.rest.now o) }
    ensures counted { NeverFell L.ops L.wides ledger.old ledger.new }
{
    match next_of(at.rest, which.word()) {
        None => Err(Offence::NoLine),
        Some(split) => match two_words(split.front) {
            None => Err(Offence::NoLine),
            Some(words) => match read_number(words.second, ledger) {
                None => Err(Offence::NoNumber),
                Some(number) => Ok(Single {
                    number,
                    at: Cursor {
                        rest: split.back,
                        line: at.line + 1,
                    },
                }),
            },
        },
    }
}

/// The lines of the value and the scale.
fn read_both<'a, N: Exact, L: Ledger>(
    at: Cursor<'a>,
    ledger: &mut L,
) -> Result<Bounds<'a, N>, CertErr>
    requires small { at.line + length at.rest.now < 2 ^ 32 }
    ensures read { (names : Naming)
        → IfOk result (λ r. IsSection names at.entry.rest.now at.entry.line
        (value_line (N.value r.value) ∷ (scale_line (N.value r.scale) ∷ [])) r.at.rest.now
        r.at.line) }
    ensures small { IfOk result (λ r. r.at.line + length r.at.rest.now
        ≤ at.entry.line + length at.entry.rest.now) }
    ensures fault { IfErr result (λ e. (names : Naming) (s : StatusOf) → s ≢ infeasible
        → HasCause names N.limit (behind s claims 0 0) at.entry.rest.now at.entry.line e) }
    ensures counted { NeverFell L.ops L.wides ledger.old ledger.new }
{
    match read_single(Bound::Value, at, ledger) {
        Err(offence) => Err(CertErr::Rule(offence.rule(), at.line)),
        Ok(value) => match read_single(Bound::Scale, value.at, ledger) {
            Err(offence) => Err(CertErr::Rule(offence.rule(), value.at.line)),
            Ok(scale) => Ok(Bounds {
                value: value.number,
                scale: scale.number,
                at: scale.at,
            }),
        },
    }
}

/// The value and the scale where there is a plan, else 0 and 1.
fn read_bounds<'a, N: Exact, L: Ledger>(
    status: Status,
    at: Cursor<'a>,
    ledger: &mut L,
) -> Result<Bounds<'a, N>, CertErr>
    requires small { at.line + length at.rest.now < 2 ^ 32 }
    ensures read { (names : Naming)
        → IfOk result (λ r. IsSection names at.entry.rest.now at.entry.line
        (bound_lines (status_of status) (N.value r.value) (N.value r.scale)) r.at.rest.now
        r.at.line) }
    ensures unused { IfOk result (λ r. status_of status ≡ infeasible
        → (N.value r.value ≡ 0ℚ) × (N.value r.scale ≡ 1ℚ)) }
    ensures small { IfOk result (λ r. r.at.line + length r.at.rest.now
        ≤ at.entry.line + length at.entry.rest.now) }
    ensures fault { IfErr result (λ e. (names : Naming)
        → HasCause names N.limit
        (behind (status_of status) claims 0 0) at.entry.rest.now at.entry.line e) }
    ensures counted { NeverFell L.ops L.wides ledger.old ledger.new }
{
    match status {
        Status::Optimal => read_both(at, ledger),
        Status::Infeasible => Ok(Bounds {
            value: zero(ledger),
            scale: one(ledger),
            at,
        }),
        Status::Unbounded => read_both(at, ledger),
    }
}

/// The first lines of a text.
pub fn read_front<'a, N: Exact, L: Ledger>(
    text: &'a [u8],
    ledger: &mut L,
) -> Result<Front<'a, N>, CertErr>
    requires small { length text.now ≤ 2 ^ 30 }
    ensures read { (names : Naming)
        → IfOk result (λ r. SoFar names N.limit (status_of r.status) text.now
        (status_line (status_of r.status) ∷ bound_lines (status_of r.status) (N.value r.value)
        (N.value r.scale))
        r.at.rest.now r.at.line 3) }
    ensures unused { IfOk result (λ r. status_of r.status ≡ infeasible
        → (N.value r.value ≡ 0ℚ) × (N.value r.scale ≡ 1ℚ)) }
    ensures small { IfOk result (λ r. r.at.line + length r.at.rest.now ≤ 2 + length text.now) }
    ensures fault { IfErr result (λ e. (names : Naming)
        → HasCause names N.limit start text.now 1 e) }
    ensures counted { NeverFell L.ops L.wides ledger.old ledger.new }
{
    match read_status(text) {
        None => Err(CertErr::Rule(Offence::NoLine.rule(), 1)),
        Some(claim) => {
            let at = Cursor {
                rest: claim.rest,
                line: 2,
            };
            match read_bounds(claim.status, at, ledger) {
                Err(error) => Err(error),
                Ok(bounds) => Ok(Front {
                    status: claim.status,
                    value: bounds.value,
                    scale: bounds.scale,
                    at: bounds.at,
                }),
            }
        }
    }
}
