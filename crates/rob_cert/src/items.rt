//! The lines of items.

ghost use Rattle.std.specs.Prelude.{◌+◌, ◌^◌, ◌<◌, ◌≤◌, codes, length, map, IfOk, IfErr, MatchResult};
ghost use Rattle.rob_number.specs.Counts.{NeverFell};
ghost use Rattle.rob_meaning.specs.Certificates.{Status as StatusOf};
ghost use Rattle.rob_cert.specs.Causes.{HasCause};
ghost use Rattle.rob_cert.specs.NamesView.{naming};
ghost use Rattle.rob_cert.specs.Reading.{Stage, words_in};
ghost use Rattle.rob_cert.specs.ReaderLines.{HasFirst};
ghost use Rattle.rob_cert.specs.Items.{AreItems, HasItemFault, HasItemReadFault, IsItemLine, IsItemRead, StandsItem};
ghost use Rattle.rob_cert.specs.View.{item_of};

use crate::certificate::Item;
use crate::cursor::{Split, four_words};
use crate::entries::{Cursor, read_entries};
use crate::entry::next_of;
use crate::error::{CertErr, Offence};
use crate::find::find_from;
use crate::kind::Vector;
use crate::names::Names;
use crate::number::read_number;
use rob_number::{Exact, Ledger, List};
use std::alloc::Global;

/// What an item's own line tells.
#[derive(Clone, Copy, Debug)]
pub struct Head<N> {
    pub form: u32,
    pub weight: N,
    pub base: N,
}

/// An item that was read, and what is left behind its lines.
#[derive(Debug, Drop)]
pub struct OneItem<'a, N> {
    pub item: Item<N>,
    pub at: Cursor<'a>,
}

/// Items that were read, and what is left behind their lines.
#[derive(Debug, Drop)]
pub struct Items<'a, N> {
    pub list: List<Item<N>>,
    pub at: Cursor<'a>,
}

/// What an item's line tells, with at least that form.
fn read_head<N: Exact, L: Ledger>(
    line: &[u8],
    names: &Names,
    least: usize,
    ledger: &mut L,
) -> Result<Head<N>, Offence>
    requires first { HasFirst (codes "item") line.now }
    requires few { length names.now.forms < 2 ^ 32 }
    ensures head { MatchResult result
        (λ h. IsItemLine (naming names.now) N.limit least (words_in line.now) h.form
        (N.value h.weight) (N.value h.base))
        (λ o. HasItemFault (naming names.now) N.limit least (words_in line.now) o) }
    ensures counted { NeverFell L.ops L.wides ledger.old ledger.new }
{
    match four_words(line) {
        None => Err(Offence::NoLine),
        Some(words) => match find_from(names.forms.items(), least, words.second) {
            None => Err(Offence::NoShape),
            Some(form) => match read_number(words.third, ledger) {
                None => Err(Offence::NoNumber),
                Some(weight) => match read_number(words.fourth, ledger) {
                    None => Err(Offence::NoNumber),
                    Some(base) => Ok(Head {
                        form: form as u32,
                        weight,
                        base,
                    }),
                },
            },
        },
    }
}

/// The item whose line is the front, with at least that form, and whose entries stand behind.
fn read_item<'a, N: Exact, L: Ledger>(
    alloc: Global,
    names: &Names,
    least: usize,
    split: Split<'a>,
    line: u32,
    ledger: &mut L,
) -> Result<OneItem<'a, N>, CertErr>
    requires first { HasFirst (codes "item") split.front.now }
    requires few { length names.now.forms < 2 ^ 32 }
    requires small { line + 1 + length split.back.now < 2 ^ 32 }
    ensures read { IfOk result (λ r. IsItemRead (naming names.now) N.limit least
        (words_in split.entry.front.now) split.entry.back.now
        (line + 1) (item_of N.value r.item) r.at.rest.now r.at.line) }
    ensures small { IfOk result (λ r. r.at.line + length r.at.rest.now
        ≤ line + 1 + length split.entry.back.now) }
    ensures fault { IfErr result (λ e. HasItemReadFault (naming names.now) N.limit least
        (words_in split.entry.front.now)
        split.entry.back.now (line + 1) line e) }
    ensures counted { NeverFell L.ops L.wides ledger.old ledger.new }
{
    match read_head(split.front, names, least, ledger) {
        Err(offence) => Err(CertErr::Rule(offence.rule(), line)),
        Ok(head) => {
            let behind = Cursor {
                rest: split.back,
                line: line + 1,
            };
            let count = names.parameters.items().len();
            match read_entries(alloc, Vector::At, names, count, behind, ledger) {
                Err(error) => Err(error),
                Ok(entries) => Ok(OneItem {
                    item: Item {
                        form: head.form,
                        weight: head.weight,
                        base: head.base,
                        vector: List::from(entries.numbers),
                    },
                    at: entries.at,
                }),
            }
        }
    }
}

/// The lines of items, up to the first line of another kind.
pub fn read_items<'a, N: Exact, L: Ledger>(
    alloc: Global,
    names: &Names,
    at: Cursor<'a>,
    ledger: &mut L,
) -> Result<Items<'a, N>, CertErr>
    requires few { length names.now.forms < 2 ^ 32 }
    requires small { at.line + length at.rest.now < 2 ^ 32 }
    ensures read { IfOk result (λ r. AreItems
        (naming names.now) N.limit at.entry.rest.now at.entry.line
        (map (item_of N.value) r.list) r.at.rest.now r.at.line) }
    ensures small { IfOk result (λ r. r.at.line + length r.at.rest.now
        ≤ at.entry.line + length at.entry.rest.now) }
    ensures fault { IfErr result (λ e. (s : StatusOf) (stage : Stage) → StandsItem s 0 stage
        → HasCause (naming names.now) N.limit stage at.entry.rest.now at.entry.line e) }
    ensures counted { NeverFell L.ops L.wides ledger.old ledger.new }
{
    let mut list = List::new(alloc);
    let mut form = 0usize;
    let mut rest = at.rest;
    let mut line = at.line;
    while let Some(split) = next_of(rest, b"item") {
        match read_item(alloc, names, form, split, line, ledger) {
            Err(error) => return Err(error),
            Ok(one) => {
                form = one.item.form as usize;
                rest = one.at.rest;
                line = one.at.line;
                list.push(one.item)?;
            }
        }
    }
    Ok(Items {
        list,
        at: Cursor { rest, line },
    })
}
