//! The lines of covers.

ghost use Rattle.std.specs.Prelude.{◌≡◌, ◌+◌, ◌^◌, ◌<◌, ◌≤◌, ◌==◌, if◌then◌else◌, ℕ, length, map, IfOk, IfErr, MatchOption, MatchResult};
ghost use Rattle.rob_number.specs.Counts.{NeverFell};
ghost use Rattle.rob_meaning.specs.Certificates.{Status as StatusOf};
ghost use Rattle.rob_meaning.specs.Named.{AreDistinct};
ghost use Rattle.rob_cert.specs.Causes.{HasCause};
ghost use Rattle.rob_cert.specs.NamesView.{naming};
ghost use Rattle.rob_cert.specs.Kinds.{multipliers as multipliers_kind};
ghost use Rattle.rob_cert.specs.Reading.{Stage, words_in};
ghost use Rattle.rob_cert.specs.ReaderLines.{HasFirst, StandsBehind};
ghost use Rattle.rob_cert.specs.Covers.{AreCovers, HasCoverFault, IsCoverLine, IsPair};
ghost use Rattle.rob_cert.specs.Spelling.{multipliers_word};
ghost use Rattle.rob_cert.specs.View.{cover_of};

use crate::certificate::Cover;
use crate::cursor::four_words;
use crate::entries::Cursor;
use crate::entry::{is_zero_word, next_of};
use crate::error::{CertErr, Offence};
use crate::find::find_from;
use crate::kind::Multipliers;
use crate::names::Names;
use crate::number::read_number;
use rob_number::{Exact, Ledger, List};
use std::alloc::Global;

/// A form and a set row.
#[derive(Clone, Copy, Debug)]
pub struct Pair {
    pub form: u32,
    pub set_row: u32,
}

/// Covers that were read, and what is left behind their lines.
#[derive(Debug, Drop)]
pub struct Covers<'a, N> {
    pub list: List<Cover<N>>,
    pub at: Cursor<'a>,
}

/// The least set row that a form may have, which is `place` at the form `least` itself.
fn least_row(form: usize, least: usize, place: usize) -> usize
    ensures row { result ≡ (if form == least then place else 0) }
{
    if form == least { place } else { 0 }
}

/// The numbers of a form's and a set row's name, of which the form is at least `form`, and at it the set row at least
/// `place`.
fn find_pair(
    names: &Names,
    form: usize,
    place: usize,
    form_name: &[u8],
    row_name: &[u8],
) -> Option<Pair>
    requires distinct { AreDistinct names.now.forms }
    requires few { (length names.now.forms < 2 ^ 32) × (length names.now.set_rows < 2 ^ 32) }
    ensures found { MatchOption result
        ((i r : ℕ) → IsPair (naming names.now) form place form_name.now row_name.now i r → ⊥)
        (λ p. IsPair (naming names.now) form place form_name.now row_name.now p.form p.set_row) }
{
    match find_from(names.forms.items(), form, form_name) {
        None => None,
        Some(i) => match find_from(names.set_rows.items(), least_row(i, form, place), row_name) {
            None => None,
            Some(r) => Some(Pair {
                form: i as u32,
                set_row: r as u32,
            }),
        },
    }
}

/// The cover that a line of that kind tells, with at least that form, and at it at least that set row.
fn read_cover<N: Exact, L: Ledger>(
    line: &[u8],
    which: Multipliers,
    names: &Names,
    least: (usize, usize),
    ledger: &mut L,
) -> Result<Cover<N>, Offence>
    requires first { HasFirst (multipliers_word which) line.now }
    requires distinct { AreDistinct names.now.forms }
    requires few { (length names.now.forms < 2 ^ 32) × (length names.now.set_rows < 2 ^ 32) }
    ensures cover { MatchResult result
        (λ c. IsCoverLine (naming names.now) N.limit which least.0 least.1
        (words_in line.now) c.form c.set_row (N.value c.amount))
        (λ o. HasCoverFault (naming names.now) N.limit which least.0 least.1
        (words_in line.now) o) }
    ensures counted { NeverFell L.ops L.wides ledger.old ledger.new }
{
    match four_words(line) {
        None => Err(Offence::NoLine),
        Some(words) => match find_pair(names, least.0, least.1, words.second, words.third) {
            None => Err(Offence::NoShape),
            Some(pair) => {
                if is_zero_word(words.fourth) {
                    return Err(Offence::NoShape);
                }
                match read_number(words.fourth, ledger) {
                    None => Err(Offence::NoNumber),
                    Some(amount) => Ok(Cover {
                        form: pair.form,
                        set_row: pair.set_row,
                        amount,
                    }),
                }
            }
        },
    }
}

/// The lines of covers, up to the first line of another kind.
pub fn read_covers<'a, N: Exact, L: Ledger>(
    alloc: Global,
    which: Multipliers,
    names: &Names,
    at: Cursor<'a>,
    ledger: &mut L,
) -> Result<Covers<'a, N>, CertErr>
    requires distinct { AreDistinct names.now.forms }
    requires few { (length names.now.forms < 2 ^ 32) × (length names.now.set_rows < 2 ^ 32) }
    requires small { at.line + length at.rest.now < 2 ^ 32 }
    ensures read { IfOk result (λ r. AreCovers
        (naming names.now) N.limit which at.entry.rest.now at.entry.line
        (map (cover_of N.value) r.list) r.at.rest.now r.at.line) }
    ensures small { IfOk result (λ r. r.at.line + length r.at.rest.now
        ≤ at.entry.line + length at.entry.rest.now) }
    ensures fault { IfErr result (λ e. (s : StatusOf) (stage : Stage)
        → StandsBehind s (multipliers_kind which) 0 0 stage
        → HasCause (naming names.now) N.limit stage at.entry.rest.now at.entry.line e) }
    ensures counted { NeverFell L.ops L.wides ledger.old ledger.new }
{
    let mut list = List::new(alloc);
    let mut form = 0usize;
    let mut place = 0usize;
    let mut rest = at.rest;
    let mut line = at.line;
    while let Some(split) = next_of(rest, which.word()) {
        match read_cover(split.front, which, names, (form, place), ledger) {
            Err(offence) => return Err(CertErr::Rule(offence.rule(), line)),
            Ok(cover) => {
                list.push(cover)?;
                form = cover.form as usize;
                place = cover.set_row as usize + 1;
                rest = split.back;
                line += 1;
            }
        }
    }
    Ok(Covers {
        list,
        at: Cursor { rest, line },
    })
}
