//! The lines of a vector's entries.

ghost use Rattle.std.specs.Prelude.{◌≡◌, ◌+◌, ◌^◌, ◌<◌, ◌≤◌, ℕ, length, map, IfOk, IfErr};
ghost use Rattle.rob_number.specs.Counts.{NeverFell};
ghost use Rattle.rob_meaning.specs.Certificates.{Status as StatusOf};
ghost use Rattle.rob_cert.specs.Causes.{HasCause};
ghost use Rattle.rob_cert.specs.NamesView.{naming};
ghost use Rattle.rob_cert.specs.Kinds.{entries as entries_kind};
ghost use Rattle.rob_cert.specs.Reading.{Stage};
ghost use Rattle.rob_cert.specs.ReaderLines.{StandsAt};
ghost use Rattle.rob_cert.specs.Entries.{AreEntries, IsZeroVector};
ghost use Rattle.rob_cert.specs.Spelling.{entry_names};

use crate::entry::{next_of, read_entry};
use crate::error::CertErr;
use crate::kind::Vector;
use crate::names::Names;
use rob_model::numbers::zero;
use rob_number::{Exact, Ledger, Memory};
use std::alloc::Global;

/// What is left of a text, and the number of its first line.
#[derive(Clone, Copy, Debug)]
pub struct Cursor<'a> {
    pub rest: &'a [u8],
    pub line: u32,
}

/// A vector that was read, and what is left behind its lines.
#[derive(Debug, Drop)]
pub struct Entries<'a, N> {
    pub numbers: Vec<N>,
    pub at: Cursor<'a>,
}

/// That many zeros.
fn zeros<N: Exact, L: Ledger>(alloc: Global, count: usize, ledger: &mut L) -> Result<Vec<N>, Memory>
    ensures zeros { IfOk result (λ v. IsZeroVector count (map N.value v.items)) }
    ensures counted { NeverFell L.ops L.wides ledger.old ledger.new }
{
    let mut numbers = Vec::new(alloc);
    let nothing: N = zero(ledger);
    for _k in 0..count {
        numbers.push(nothing)?;
    }
    Ok(numbers)
}

/// The lines of a vector's entries, up to the first line of another kind.
pub fn read_entries<'a, N: Exact, L: Ledger>(
    alloc: Global,
    vector: Vector,
    names: &Names,
    count: usize,
    at: Cursor<'a>,
    ledger: &mut L,
) -> Result<Entries<'a, N>, CertErr>
    requires count { count ≡ length (entry_names (naming names.now) vector) }
    requires small { at.line + length at.rest.now < 2 ^ 32 }
    ensures read { IfOk result (λ r. AreEntries
        (naming names.now) N.limit vector count at.entry.rest.now at.entry.line
        (map N.value r.numbers.items) r.at.rest.now r.at.line) }
    ensures small { IfOk result (λ r. r.at.line + length r.at.rest.now
        ≤ at.entry.line + length at.entry.rest.now) }
    ensures fault { IfErr result (λ e. (s : StatusOf) (form : ℕ) (stage : Stage)
        → StandsAt s (entries_kind vector) form 0 stage
        → HasCause (naming names.now) N.limit stage at.entry.rest.now at.entry.line e) }
    ensures counted { NeverFell L.ops L.wides ledger.old ledger.new }
{
    let mut numbers = zeros(alloc, count, ledger)?;
    let mut least = 0usize;
    let mut rest = at.rest;
    let mut line = at.line;
    while let Some(split) = next_of(rest, vector.word()) {
        match read_entry(split.front, vector, names, least, ledger) {
            Err(offence) => return Err(CertErr::Rule(offence.rule(), line)),
            Ok(entry) => {
                numbers[entry.place] = entry.number;
                least = entry.place + 1;
                rest = split.back;
                line += 1;
            }
        }
    }
    Ok(Entries {
        numbers,
        at: Cursor { rest, line },
    })
}
