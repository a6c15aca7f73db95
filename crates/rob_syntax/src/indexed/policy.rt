//! Adaptive variables that are declared.

ghost use Rattle.std.specs.Prelude.{[], ◌∷◌, map, MatchResult};
ghost use Rattle.std.specs.Option.{option_map};
ghost use Rattle.rob_index.specs.Grammar.{spell_list, spell_more, spell_ref};
ghost use Rattle.rob_index.specs.Lines.{spell_ranged};
ghost use Rattle.rob_syntax.specs.Fronts.{EndsEntry, EndsLine, EndsList, Found, HasCause, ReadsMore};
ghost use Rattle.rob_syntax.specs.Parts.{spell_adaptive};
ghost use Rattle.rob_syntax.specs.SeenSymbols.{seen_line};
ghost use Rattle.rob_syntax.specs.Seen.{seen_bounds, seen_ranged, seen_ranges, seen_ref};

use crate::error::ParseErr;
use crate::indexed::front::{behind_mark, front_name};
use crate::indexed::index::reference;
use crate::indexed::line::bounded;
use crate::indexed::range::ranges;
use crate::symbol::{Mark, Symbol};
use crate::syntax::{Ranged, Ref, Rule};
use rob_number::List;
use std::alloc::Global;

/// An adaptive variable with its list, its bounds and its ranges, as the rest of a line.
pub fn policy(alloc: Global, symbols: &[Symbol]) -> Result<Rule, ParseErr>
    ensures read { MatchResult result
        (λ p. Found spell_adaptive EndsLine (seen_line symbols.now) [] (
          seen_ref p.name,
          (
            map (seen_ranged seen_ref) p.on,
            (option_map seen_bounds p.bounds, seen_ranges p.ranges),
          ),
        ))
        (λ e. HasCause spell_adaptive EndsLine (seen_line symbols.now) e) }
{
    let (name, rest) = reference(alloc, symbols)?;
    let Some(rest) = behind_mark(rest, Mark::Open) else {
        return Err(ParseErr::NotAStatement);
    };
    let (on, rest) = entries(alloc, rest)?;
    let Some(rest) = behind_mark(rest, Mark::Close) else {
        return Err(ParseErr::NotAStatement);
    };
    let (bounds, ranges) = bounded(alloc, rest)?;
    Ok(Rule {
        name,
        on,
        bounds,
        ranges,
    })
}

/// The entries at the front, of which there may be none, and the symbols behind them.
fn entries(alloc: Global, symbols: &[Symbol]) -> Result<(List<Ranged<Ref>>, &[Symbol]), ParseErr>
    ensures read { MatchResult result
        (λ p. Found (spell_list (spell_ranged spell_ref)) (EndsList EndsEntry)
        (seen_line symbols.now) (seen_line p.1.now) (map (seen_ranged seen_ref) p.0))
        (λ e. HasCause (spell_list (spell_ranged spell_ref)) (EndsList EndsEntry)
        (seen_line symbols.now) e) }
{
    let Some(_) = front_name(symbols) else {
        return Ok((List::new(alloc), symbols));
    };
    let (first, rest) = entry(alloc, symbols)?;
    let (list, rest) = entries_behind(alloc, first, rest)?;
    Ok((list, rest))
}

/// Entries behind commas, appended to the first one, and the symbols behind them.
fn entries_behind(
    alloc: Global,
    first: Ranged<Ref>,
    symbols: &[Symbol],
) -> Result<(List<Ranged<Ref>>, &[Symbol]), ParseErr>
    ensures read { MatchResult result
        (λ p. ReadsMore (spell_more (spell_ranged spell_ref)) (EndsList EndsEntry) (λ xs. xs)
        (seen_line symbols.now) (seen_line p.1.now) (seen_ranged seen_ref first ∷ [])
        (map (seen_ranged seen_ref) p.0))
        (λ e. HasCause (spell_more (spell_ranged spell_ref)) (EndsList EndsEntry)
        (seen_line symbols.now) e) }
{
    let mut list = List::new(alloc);
    list.push(first)?;
    let mut rest = symbols;
    while let Some(behind) = behind_mark(rest, Mark::Comma) {
        let (next, after) = entry(alloc, behind)?;
        list.push(next)?;
        rest = after;
    }
    Ok((list, rest))
}

/// The name with its ranges at the front, and the symbols behind it.
fn entry(alloc: Global, symbols: &[Symbol]) -> Result<(Ranged<Ref>, &[Symbol]), ParseErr>
    ensures read { MatchResult result
        (λ p. Found (spell_ranged spell_ref) EndsEntry (seen_line symbols.now) (seen_line p.1.now)
        (seen_ranged seen_ref p.0))
        (λ e. HasCause (spell_ranged spell_ref) EndsEntry (seen_line symbols.now) e) }
{
    let (item, rest) = reference(alloc, symbols)?;
    let (ranges, rest) = ranges(alloc, rest)?;
    Ok((Ranged { item, ranges }, rest))
}
