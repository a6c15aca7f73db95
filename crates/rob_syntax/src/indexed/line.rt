//! What stands behind the keyword of a statement.

ghost use Rattle.std.specs.Prelude.{◌≡◌, [], ◌∷◌, MatchOption, MatchResult};
ghost use Rattle.std.specs.Option.{option_map};
ghost use Rattle.rob_index.specs.Grammar.{spell_over, spell_ranges};
ghost use Rattle.rob_index.specs.Lines.{spell_rel, spell_sides, trees_of};
ghost use Rattle.rob_syntax.specs.Fronts.{BeginsNone, EndsLine, EndsOver, EndsSides, Found, HasCause, Reads};
ghost use Rattle.rob_syntax.specs.Parts.{spell_named, spell_bounded, spell_declared, spell_ending, tree_ending, spell_related, tree_related};
ghost use Rattle.rob_syntax.specs.SeenSymbols.{seen_line};
ghost use Rattle.rob_syntax.specs.Seen.{seen_bounds, seen_rel, seen_ref, seen_ranges, seen_over, seen_tree, seen_sides};

use crate::error::ParseErr;
use crate::indexed::bounds::bounds;
use crate::indexed::expr::expr;
use crate::indexed::front::{behind_mark, behind_word};
use crate::indexed::index::reference;
use crate::indexed::range::ranges;
use crate::symbol::{Keyword, Mark, Symbol};
use crate::syntax::{Bounds, Entry, Range, Ranged, Ref, Rel, Sides, Tree};
use rob_number::List;
use std::alloc::Global;

/// The relation sign at the front, and the symbols behind it.
fn front_rel(symbols: &[Symbol]) -> Option<(Rel, &[Symbol])>
    ensures read { MatchOption result (BeginsNone spell_rel (seen_line symbols.now))
        (λ p. seen_line symbols.now ≡ spell_rel (seen_rel p.0) ∷ seen_line p.1.now) }
{
    if let Some(rest) = behind_mark(symbols, Mark::AtMost) {
        return Some((Rel::AtMost, rest));
    }
    if let Some(rest) = behind_mark(symbols, Mark::AtLeast) {
        return Some((Rel::AtLeast, rest));
    }
    let rest = behind_mark(symbols, Mark::Equal)?;
    Some((Rel::Equal, rest))
}

/// The set behind `over` at the front, or none, and the symbols behind it.
pub fn over(alloc: Global, symbols: &[Symbol]) -> Result<(Option<Ref>, &[Symbol]), ParseErr>
    ensures read { MatchResult result
        (λ p. Found spell_over EndsOver (seen_line symbols.now) (seen_line p.1.now) (seen_over p.0))
        (λ e. HasCause spell_over EndsOver (seen_line symbols.now) e) }
{
    let Some(rest) = behind_word(symbols, Keyword::Over) else {
        return Ok((None, symbols));
    };
    let (set, rest) = reference(alloc, rest)?;
    Ok((Some(set), rest))
}

/// The set behind `over`, or none, as the rest of a line.
pub fn last_over(alloc: Global, symbols: &[Symbol]) -> Result<Option<Ref>, ParseErr>
    ensures read { MatchResult result
        (λ o. Found spell_over EndsLine (seen_line symbols.now) [] (seen_over o))
        (λ e. HasCause spell_over EndsLine (seen_line symbols.now) e) }
{
    let (set, rest) = over(alloc, symbols)?;
    if rest.is_empty() {
        Ok(set)
    } else {
        Err(ParseErr::NotAStatement)
    }
}

/// The ranges that are the rest of a line.
pub fn last_ranges(alloc: Global, symbols: &[Symbol]) -> Result<List<Range>, ParseErr>
    ensures read { MatchResult result
        (λ rs. Found spell_ranges EndsLine (seen_line symbols.now) [] (seen_ranges rs))
        (λ e. HasCause spell_ranges EndsLine (seen_line symbols.now) e) }
{
    let (ranges, rest) = ranges(alloc, symbols)?;
    if rest.is_empty() {
        Ok(ranges)
    } else {
        Err(ParseErr::NotAStatement)
    }
}

/// A name and ranges, as the rest of a line.
pub fn named(alloc: Global, symbols: &[Symbol]) -> Result<Ranged<Ref>, ParseErr>
    ensures read { MatchResult result
        (λ x. Found spell_named EndsLine (seen_line symbols.now) []
        (seen_ref x.item, seen_ranges x.ranges))
        (λ e. HasCause spell_named EndsLine (seen_line symbols.now) e) }
{
    let (item, rest) = reference(alloc, symbols)?;
    let ranges = last_ranges(alloc, rest)?;
    Ok(Ranged { item, ranges })
}

/// Bounds and ranges, as the rest of a line.
pub fn bounded(alloc: Global, symbols: &[Symbol]) -> Result<(Option<Bounds>, List<Range>), ParseErr>
    ensures read { MatchResult result
        (λ p. Found spell_bounded EndsLine (seen_line symbols.now) []
        (option_map seen_bounds p.0, seen_ranges p.1))
        (λ e. HasCause spell_bounded EndsLine (seen_line symbols.now) e) }
{
    let Some((bounds, rest)) = bounds(symbols) else {
        return Err(ParseErr::NotAStatement);
    };
    let ranges = last_ranges(alloc, rest)?;
    Ok((bounds, ranges))
}

/// A name that is declared, with its bounds and its ranges, as the rest of a line.
pub fn declared(alloc: Global, symbols: &[Symbol]) -> Result<Entry, ParseErr>
    ensures read { MatchResult result
        (λ d. Found spell_declared EndsLine (seen_line symbols.now) []
        (seen_ref d.name, (option_map seen_bounds d.bounds, seen_ranges d.ranges)))
        (λ e. HasCause spell_declared EndsLine (seen_line symbols.now) e) }
{
    let (name, rest) = reference(alloc, symbols)?;
    let (bounds, ranges) = bounded(alloc, rest)?;
    Ok(Entry {
        name,
        bounds,
        ranges,
    })
}

/// An expression and the set that it is over at the front, and the symbols behind them.
pub fn ending(
    alloc: Global,
    symbols: &[Symbol],
) -> Result<((Tree, Option<Ref>), &[Symbol]), ParseErr>
    ensures read { MatchResult result
        (λ p. Reads spell_ending EndsSides tree_ending (seen_line symbols.now) (seen_line p.1.now)
        (seen_tree p.0.0, seen_over p.0.1))
        (λ e. HasCause spell_ending EndsSides (seen_line symbols.now) e) }
{
    let (tree, rest) = expr(alloc, symbols)?;
    let (over, rest) = over(alloc, rest)?;
    Ok(((tree, over), rest))
}

/// Two expressions with a relation between them at the front, and the set that it is over; and the symbols behind them.
fn sides(alloc: Global, symbols: &[Symbol]) -> Result<(Sides, &[Symbol]), ParseErr>
    ensures read { MatchResult result
        (λ p. Reads spell_sides EndsSides trees_of (seen_line symbols.now) (seen_line p.1.now)
        (seen_sides p.0))
        (λ e. HasCause spell_sides EndsSides (seen_line symbols.now) e) }
{
    let (left, rest) = expr(alloc, symbols)?;
    let Some((rel, rest)) = front_rel(rest) else {
        return Err(ParseErr::NotAStatement);
    };
    let ((right, over), rest) = ending(alloc, rest)?;
    let sides = Sides {
        left,
        rel,
        right,
        over,
    };
    Ok((sides, rest))
}

/// A relation with its ranges, as the rest of a line.
pub fn related(alloc: Global, symbols: &[Symbol]) -> Result<Ranged<Sides>, ParseErr>
    ensures read { MatchResult result
        (λ x. Reads spell_related EndsLine tree_related (seen_line symbols.now) []
        (seen_sides x.item, seen_ranges x.ranges))
        (λ e. HasCause spell_related EndsLine (seen_line symbols.now) e) }
{
    let (item, rest) = sides(alloc, symbols)?;
    let ranges = last_ranges(alloc, rest)?;
    Ok(Ranged { item, ranges })
}
