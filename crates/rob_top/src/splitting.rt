//! The answers of `cells` and `celltext`.

ghost use Rattle.std.specs.Prelude.{◌≡◌, ◌≤◌, ◌<◌, List as Items, IfOk, MatchOption, length, map, pos, string_bytes};
ghost use Rattle.rob_algebra.specs.Fraction.{of_pair};
ghost use Rattle.rob_cells.specs.View.{cut_of};
ghost use Rattle.rob_meaning.specs.Named.{IsNamed};
ghost use Rattle.rob_meaning.specs.Values.{signed};
ghost use Rattle.rob_model.specs.Valid.{IsValid};
ghost use Rattle.rob_model.specs.View.{robust};
ghost use Rattle.rob_pieces.specs.Cuts as pieces;
ghost use Rattle.rob_pieces.specs.Cuts.{AreCuts};
ghost use Rattle.rob_top.specs.Calls.{count};
ghost use Rattle.rob_top.specs.Commands.{IsSplitting};
ghost use Rattle.rob_top.specs.Split.{AreCutsAt, IsCutAt};
ghost use Rattle.rob_top.specs.SplitWork.{AnswersCutWord, AnswersCuts, RepliesPieces, RepliesSplit};
ghost use Rattle.rob_top.specs.Work.{AnswersWords};
ghost use Rattle.rob_words.specs.Cuts.{IsCut, IsCutList};
ghost use Rattle.rob_words.specs.Names.{parts_of};

use crate::names::own_word;
use crate::solving::stopped;
use rob_cells::{CellsErr, Cut, cell_count, cut_model};
use rob_commands::Ended;
use rob_commands::certificates::with_cells;
use rob_commands::reply::{Reply, broken_words, printed_model};
use rob_dualize::solve_model;
use rob_model::{Model, find_param};
use rob_number::exact::fraction;
use rob_number::{Exact, Ledger, List, Memory};
use rob_words::{MOST_CUTS, Own, Route, Verb, cut, first_part};
use std::alloc::Global;

/// The answer of `cells` or `celltext`, for a model that was read and the command's own words, of which one is a list
/// of cuts.
pub fn split_words<N: Exact + Drop, L: Ledger>(
    alloc: Global,
    model: &Model<N>,
    verb: Verb,
    words: &[String],
    ledger: &mut L,
) -> Result<Reply, Memory>
    requires valid { IsValid N.value model.now }
    requires named { IsNamed (robust N.value model.now) }
    requires splits { IsSplitting verb }
    ensures answers { IfOk result (AnswersWords N.limit
        (count (L.wides ledger.old) (L.wides ledger.new))
        (robust N.value model.now) verb (map string_bytes words.now)) }
    ensures counted { L.wides ledger.old ≤ L.wides ledger.new }
{
    let word = own_word(Own::Cuts, verb, words);
    at_word(alloc, model, verb, word, ledger)
}

/// The answer for a word of cuts.
fn at_word<N: Exact + Drop, L: Ledger>(
    alloc: Global,
    model: &Model<N>,
    verb: Verb,
    word: &str,
    ledger: &mut L,
) -> Result<Reply, Memory>
    requires valid { IsValid N.value model.now }
    requires named { IsNamed (robust N.value model.now) }
    requires splits { IsSplitting verb }
    ensures answers { IfOk result (AnswersCutWord N.limit
        (count (L.wides ledger.old) (L.wides ledger.new))
        (robust N.value model.now) verb word.now) }
    ensures counted { L.wides ledger.old ≤ L.wides ledger.new }
{
    if !model.sets.items().is_empty() {
        return broken_words(alloc, Ended::Cells(51), b"cells ", 51);
    }
    let found = cuts_of(alloc, model, word, ledger)?;
    match found {
        Some(cuts) => at_cuts(alloc, model, verb, cuts.items(), ledger),
        None => broken_words(alloc, Ended::Cells(52), b"cells ", 52),
    }
}

/// The cuts that a word spells, 1 to 3 with `,` between them; of a word that is a list of cuts `None` where a cut's
/// name is no parameter's.
fn cuts_of<N: Exact, L: Ledger>(
    alloc: Global,
    model: &Model<N>,
    word: &str,
    ledger: &mut L,
) -> Result<Option<List<Cut<N>>>, Memory>
    requires valid { IsValid N.value model.now }
    requires named { IsNamed (robust N.value model.now) }
    ensures cuts { IfOk result (λ found. MatchOption found
        (IsCutList N.limit word.now
        → (cuts : Items pieces.Cut) → AreCutsAt (robust N.value model.now) (parts_of word.now) cuts
        → ⊥)
        (λ cuts. AreCutsAt (robust N.value model.now) (parts_of word.now)
        (map (cut_of N.value) cuts) × ((0 < length cuts) × (length cuts ≤ 3)))) }
    ensures counted { L.wides ledger.old ≤ L.wides ledger.new }
{
    let mut cuts = List::new(alloc);
    let mut rest = Some(word);
    while let Some(word) = rest {
        let (first, behind) = first_part(word);
        if cuts.items().len() == MOST_CUTS {
            return Ok(None);
        }
        let Some(next) = cut_at(model, first, ledger) else {
            return Ok(None);
        };
        cuts.push(next)?;
        rest = behind;
    }
    Ok(Some(cuts))
}

/// The cut that a word spells; of a word that is a cut `None` where its name is no parameter's.
fn cut_at<N: Exact, L: Ledger>(model: &Model<N>, word: &str, ledger: &mut L) -> Option<Cut<N>>
    requires valid { IsValid N.value model.now }
    requires named { IsNamed (robust N.value model.now) }
    ensures cut { MatchOption result
        (IsCut N.limit word.now → (cut : pieces.Cut)
        → IsCutAt (robust N.value model.now) word.now cut → ⊥)
        (λ cut. IsCutAt (robust N.value model.now) word.now (cut_of N.value cut)) }
    ensures counted { L.wides ledger.old ≤ L.wides ledger.new }
{
    let told = cut(word, N::LIMIT as u64)?;
    let param = find_param(model, told.name.as_bytes())?;
    Some(Cut {
        param,
        at: signed(told.negative, told.numerator, told.denominator, ledger),
    })
}

/// The number of these parts, with the other sign where it is negative.
fn signed<N: Exact, L: Ledger>(
    negative: bool,
    numerator: u64,
    denominator: u64,
    ledger: &mut L,
) -> N
    requires numerator { numerator ≤ N.limit }
    requires denominator { denominator ≤ N.limit }
    requires positive { 0 < denominator }
    ensures value { N.value result ≡ signed negative (of_pair (pos numerator) denominator) }
    ensures counted { L.wides ledger.old ≤ L.wides ledger.new }
{
    let size: N = fraction(numerator, denominator, ledger);
    if negative { size.neg() } else { size }
}

/// The answer for cuts at parameters of a model without named sets.
fn at_cuts<N: Exact + Drop, L: Ledger>(
    alloc: Global,
    model: &Model<N>,
    verb: Verb,
    cuts: &[Cut<N>],
    ledger: &mut L,
) -> Result<Reply, Memory>
    requires valid { IsValid N.value model.now }
    requires some { 0 < length cuts.now }
    requires few { length cuts.now ≤ 3 }
    requires cuts { AreCuts (robust N.value model.now) (map (cut_of N.value) cuts.now) }
    requires splits { IsSplitting verb }
    ensures answers { IfOk result (AnswersCuts N.limit
        (count (L.wides ledger.old) (L.wides ledger.new))
        (robust N.value model.now) verb (map (cut_of N.value) cuts.now)) }
    ensures counted { L.wides ledger.old ≤ L.wides ledger.new }
{
    match cut_model(alloc, model, cuts) {
        Ok(other) => on_split(alloc, &other, verb, cell_count(cuts), ledger),
        Err(CellsErr::Rule(rule)) => broken_words(alloc, Ended::Cells(rule), b"cells ", rule),
        Err(CellsErr::Memory) => Err(Memory),
    }
}

/// The answer for the split model of so many cells.
fn on_split<N: Exact + Drop, L: Ledger>(
    alloc: Global,
    model: &Model<N>,
    verb: Verb,
    cells: u32,
    ledger: &mut L,
) -> Result<Reply, Memory>
    requires valid { IsValid N.value model.now }
    requires splits { IsSplitting verb }
    ensures replies { IfOk result (RepliesSplit N.limit
        (count (L.wides ledger.old) (L.wides ledger.new))
        (robust N.value model.now) cells verb) }
    ensures counted { L.wides ledger.old ≤ L.wides ledger.new }
{
    match verb {
        Verb::Cells => solved(alloc, model, cells, ledger),
        Verb::CellText => printed_model(alloc, model),
        _ => unreachable!(),
    }
}

/// The number of cells, and the answer of `solve` for the split model.
fn solved<N: Exact + Drop, L: Ledger>(
    alloc: Global,
    model: &Model<N>,
    cells: u32,
    ledger: &mut L,
) -> Result<Reply, Memory>
    requires valid { IsValid N.value model.now }
    ensures pieces { IfOk result (RepliesPieces N.limit
        (count (L.wides ledger.old) (L.wides ledger.new))
        (robust N.value model.now) cells) }
    ensures counted { L.wides ledger.old ≤ L.wides ledger.new }
{
    match solve_model(alloc, model, ledger) {
        Ok(cert) => with_cells(alloc, model, cells, &cert),
        Err(stop) => stopped(alloc, model, Route::Dual, stop),
    }
}
