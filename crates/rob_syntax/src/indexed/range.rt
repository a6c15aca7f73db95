//! Ranges.

ghost use Rattle.std.specs.Prelude.{[], ◌∷◌, map, MatchOption, MatchResult};
ghost use Rattle.rob_index.specs.Grammar.{spell_more, spell_range, spell_ranges};
ghost use Rattle.rob_syntax.specs.Fronts.{BeginsNoRange, BeginsRange, EndsIndex, EndsRanges, Found, HasCause, ReadsMore};
ghost use Rattle.rob_syntax.specs.SeenSymbols.{seen_line};
ghost use Rattle.rob_syntax.specs.Seen.{seen_range, seen_ranges};

use crate::error::ParseErr;
use crate::indexed::front::{behind_mark, behind_word, front_name};
use crate::indexed::index::index;
use crate::symbol::{Keyword, Mark, Symbol};
use crate::syntax::Range;
use rob_number::List;
use std::alloc::Global;

/// The range at the front, and the symbols behind it.
pub fn range(alloc: Global, symbols: &[Symbol]) -> Result<(Range, &[Symbol]), ParseErr>
    ensures read { MatchResult result
        (λ p. Found spell_range EndsIndex (seen_line symbols.now) (seen_line p.1.now)
        (seen_range p.0))
        (λ e. HasCause spell_range EndsIndex (seen_line symbols.now) e) }
{
    let Some((name, rest)) = front_name(symbols) else {
        return Err(ParseErr::NotAStatement);
    };
    let Some(rest) = behind_mark(rest, Mark::Equal) else {
        return Err(ParseErr::NotAStatement);
    };
    let (from, rest) = index(alloc, rest)?;
    let Some(rest) = behind_word(rest, Keyword::To) else {
        return Err(ParseErr::NotAStatement);
    };
    let (upto, rest) = index(alloc, rest)?;
    Ok((Range { name, from, upto }, rest))
}

/// The symbols behind a `,` at the front, where a name and `=` follow it.
fn behind_range_comma(symbols: &[Symbol]) -> Option<&[Symbol]>
    ensures read { MatchOption result (BeginsNoRange (seen_line symbols.now))
        (λ rest. BeginsRange (seen_line symbols.now) (seen_line rest.now)) }
{
    let behind = behind_mark(symbols, Mark::Comma)?;
    let (_, rest) = front_name(behind)?;
    match behind_mark(rest, Mark::Equal) {
        Some(_) => Some(behind),
        None => None,
    }
}

/// Ranges behind commas, appended to the first one, and the symbols behind them.
fn ranges_behind(
    alloc: Global,
    first: Range,
    symbols: &[Symbol],
) -> Result<(List<Range>, &[Symbol]), ParseErr>
    ensures read { MatchResult result
        (λ p. ReadsMore (spell_more spell_range) EndsRanges (λ xs. xs) (seen_line symbols.now)
        (seen_line p.1.now) (seen_range first ∷ []) (map seen_range p.0))
        (λ e. HasCause (spell_more spell_range) EndsRanges (seen_line symbols.now) e) }
{
    let mut list = List::new(alloc);
    list.push(first)?;
    let mut rest = symbols;
    while let Some(behind) = behind_range_comma(rest) {
        let (next, after) = range(alloc, behind)?;
        list.push(next)?;
        rest = after;
    }
    Ok((list, rest))
}

/// The ranges behind `for` at the front, or none, and the symbols behind them.
pub fn ranges(alloc: Global, symbols: &[Symbol]) -> Result<(List<Range>, &[Symbol]), ParseErr>
    ensures read { MatchResult result
        (λ p. Found spell_ranges EndsRanges (seen_line symbols.now) (seen_line p.1.now)
        (seen_ranges p.0))
        (λ e. HasCause spell_ranges EndsRanges (seen_line symbols.now) e) }
{
    let Some(rest) = behind_word(symbols, Keyword::For) else {
        return Ok((List::new(alloc), symbols));
    };
    let (first, rest) = range(alloc, rest)?;
    let (list, rest) = ranges_behind(alloc, first, rest)?;
    Ok((list, rest))
}
