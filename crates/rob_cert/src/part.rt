//! The parts of a certificate's text that a status uses, one behind another.

ghost use Rattle.std.specs.Prelude.{◌≡◌, ◌≢◌, ◌+◌, ◌^◌, ◌<◌, ◌≤◌, ◌++◌, ◌∷◌, [], ℕ, suc, length, map, if◌then◌else◌, IfOk, IfErr, IsTrue, ◌↔◌, codes, OnOk, List as Items_of};
ghost use Rattle.rob_number.specs.Counts.{NeverFell};
ghost use Rattle.rob_algebra.specs.Fraction.{Fraction};
ghost use Rattle.rob_meaning.specs.Named.{AreDistinct};
ghost use Rattle.rob_cert.specs.Lines.{Line, cover_lines, end_line, entry_lines, item_lines};
ghost use Rattle.rob_cert.specs.NamesView.{naming};
ghost use Rattle.rob_cert.specs.ReadSoFar.{Extends, Fails, SoFar};
ghost use Rattle.rob_cert.specs.Kinds.{entries as entries_kind, is_used, items as items_kind, multipliers as multipliers_kind, rank};
ghost use Rattle.rob_cert.specs.Covers.{AreGoodCovers};
ghost use Rattle.rob_cert.specs.Items.{AreGoodItems};
ghost use Rattle.rob_cert.specs.Spelling.{entry_names, lines_text};
ghost use Rattle.rob_cert.specs.View.{cover_of, item_of, status_of};

use crate::certificate::Status;
use crate::covers::{Covers, read_covers};
use crate::cursor::split_byte;
use crate::entries::{Cursor, Entries, read_entries};
use crate::error::{CertErr, Offence};
use crate::items::{Items, read_items};
use crate::kind::{Multipliers, Vector};
use crate::names::Names;
use rob_number::{Exact, Ledger, List};
use std::alloc::Global;

/// The entries of a vector, where the status has them; else no numbers.
pub fn entries_part<'a, N: Exact, L: Ledger>(
    alloc: Global,
    status: Status,
    vector: Vector,
    names: &Names,
    at: Cursor<'a>,
    ledger: &mut L,
) -> Result<Entries<'a, N>, CertErr>
    requires apart { rank (entries_kind vector) ≢ 8 }
    requires few { length names.now.columns < 2 ^ 32 }
    requires small { at.line + length at.rest.now < 2 ^ 32 }
    ensures read { IfOk result (λ r. Extends (naming names.now) N.limit (status_of status)
        (rank (entries_kind vector))
        (suc (rank (entries_kind vector))) at.entry.rest.now at.entry.line
        (entry_lines vector 0 (map N.value r.numbers.items)) r.at.rest.now r.at.line) }
    ensures size { IfOk result (λ r. length (map N.value r.numbers.items)
        ≡ (if is_used (status_of status) (entries_kind vector)
        then length (entry_names (naming names.now) vector) else 0)) }
    ensures small { IfOk result (λ r. r.at.line + length r.at.rest.now
        ≤ at.entry.line + length at.entry.rest.now) }
    ensures fault { IfErr result (λ e. Fails (naming names.now) N.limit (status_of status)
        (rank (entries_kind vector)) at.entry.rest.now at.entry.line e) }
    ensures counted { NeverFell L.ops L.wides ledger.old ledger.new }
{
    if vector.is_used(status) {
        let count = names.entry_count(vector);
        read_entries(alloc, vector, names, count, at, ledger)
    } else {
        Ok(Entries {
            numbers: Vec::new(alloc),
            at,
        })
    }
}

/// Covers, where the status has them; else none.
pub fn covers_part<'a, N: Exact, L: Ledger>(
    alloc: Global,
    status: Status,
    which: Multipliers,
    names: &Names,
    at: Cursor<'a>,
    ledger: &mut L,
) -> Result<Covers<'a, N>, CertErr>
    requires distinct { AreDistinct names.now.forms }
    requires few { (length names.now.forms < 2 ^ 32) × (length names.now.set_rows < 2 ^ 32) }
    requires small { at.line + length at.rest.now < 2 ^ 32 }
    ensures read { IfOk result (λ r. Extends (naming names.now) N.limit (status_of status)
        (rank (multipliers_kind which))
        (suc (rank (multipliers_kind which))) at.entry.rest.now at.entry.line
        (cover_lines which (map (cover_of N.value) r.list)) r.at.rest.now r.at.line) }
    ensures good { IfOk result (λ r. AreGoodCovers (naming names.now)
        (is_used (status_of status) (multipliers_kind which))
        (map (cover_of N.value) r.list)) }
    ensures small { IfOk result (λ r. r.at.line + length r.at.rest.now
        ≤ at.entry.line + length at.entry.rest.now) }
    ensures fault { IfErr result (λ e. Fails (naming names.now) N.limit (status_of status)
        (rank (multipliers_kind which))
        at.entry.rest.now at.entry.line e) }
    ensures counted { NeverFell L.ops L.wides ledger.old ledger.new }
{
    if which.is_used(status) {
        read_covers(alloc, which, names, at, ledger)
    } else {
        Ok(Covers {
            list: List::new(alloc),
            at,
        })
    }
}

/// Items, where the status has them; else none.
pub fn items_part<'a, N: Exact, L: Ledger>(
    alloc: Global,
    status: Status,
    names: &Names,
    at: Cursor<'a>,
    ledger: &mut L,
) -> Result<Items<'a, N>, CertErr>
    requires few { length names.now.forms < 2 ^ 32 }
    requires small { at.line + length at.rest.now < 2 ^ 32 }
    ensures read { IfOk result (λ r. Extends (naming names.now) N.limit
        (status_of status) 8 9 at.entry.rest.now at.entry.line
        (item_lines (map (item_of N.value) r.list)) r.at.rest.now r.at.line) }
    ensures good { IfOk result (λ r. AreGoodItems (naming names.now)
        (is_used (status_of status) items_kind) (map (item_of N.value) r.list)) }
    ensures small { IfOk result (λ r. r.at.line + length r.at.rest.now
        ≤ at.entry.line + length at.entry.rest.now) }
    ensures fault { IfErr result (λ e. Fails (naming names.now) N.limit
        (status_of status) 8 at.entry.rest.now at.entry.line e) }
    ensures counted { NeverFell L.ops L.wides ledger.old ledger.new }
{
    if Vector::At.is_used(status) {
        read_items(alloc, names, at, ledger)
    } else {
        Ok(Items {
            list: List::new(alloc),
            at,
        })
    }
}

/// The end of a text, with nothing behind it.
pub fn end_part(names: &Names, status: Status, at: Cursor<'_>) -> Result<(), CertErr>
    requires small { at.line + length at.rest.now < 2 ^ 32 }
    ensures read { OnOk result ((limit : ℕ) (text : Items_of ℕ) (lines : Items_of (Line Fraction))
        → SoFar (naming names.now) limit
        (status_of status) text lines at.entry.rest.now at.entry.line 9
        → text ≡ lines_text (naming names.now) (lines ++ end_line ∷ [])) }
    ensures fault { IfErr result (λ e. (limit : ℕ)
        → Fails (naming names.now) limit (status_of status) 9 at.entry.rest.now at.entry.line e) }
{
    match split_byte(at.rest, b'\n') {
        None => Err(CertErr::Rule(Offence::NoLine.rule(), at.line)),
        Some(split) => {
            if !is_end(split.front) {
                Err(CertErr::Rule(Offence::NoLine.rule(), at.line))
            } else if is_nothing(split.back) {
                Ok(())
            } else {
                Err(CertErr::Rule(Offence::NoLine.rule(), at.line + 1))
            }
        }
    }
}

/// Whether a line is the last one.
fn is_end(line: &[u8]) -> bool
    ensures end { IsTrue result ↔ (line.now ≡ codes "end") }
{
    line == b"end".as_slice()
}

/// Whether there are no bytes.
fn is_nothing(text: &[u8]) -> bool
    ensures nothing { IsTrue result ↔ (text.now ≡ []) }
{
    text.is_empty()
}
