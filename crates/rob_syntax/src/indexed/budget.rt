//! Budgets of uncertainty.

ghost use Rattle.std.specs.Prelude.{[], ◌∷◌, map, MatchResult};
ghost use Rattle.rob_index.specs.Grammar.{spell_list, spell_more};
ghost use Rattle.rob_index.specs.Lines.{spell_ranged, spell_share};
ghost use Rattle.rob_syntax.specs.Fronts.{EndsLine, EndsList, EndsNumber, EndsShare, Found, HasCause, ReadsMore};
ghost use Rattle.rob_syntax.specs.Parts.{spell_budget};
ghost use Rattle.rob_syntax.specs.SeenSymbols.{seen_line};
ghost use Rattle.rob_syntax.specs.Seen.{seen_numeral, seen_over, seen_ranged, seen_share};

use crate::error::ParseErr;
use crate::indexed::front::{behind_mark, behind_word, front_name};
use crate::indexed::index::reference;
use crate::indexed::line::last_over;
use crate::indexed::number::{number, signed};
use crate::indexed::range::ranges;
use crate::symbol::{Keyword, Mark, Symbol};
use crate::syntax::{Ranged, Share, Shares};
use rob_number::List;
use std::alloc::Global;

/// A limit, members and the set that the line is over, as the rest of a line.
pub fn budget(alloc: Global, symbols: &[Symbol]) -> Result<Shares, ParseErr>
    ensures read { MatchResult result
        (λ b. Found spell_budget EndsLine (seen_line symbols.now) []
        (seen_numeral b.limit, (map (seen_ranged seen_share) b.members, seen_over b.over)))
        (λ e. HasCause spell_budget EndsLine (seen_line symbols.now) e) }
{
    let Some((limit, rest)) = number(symbols) else {
        return Err(ParseErr::NotAStatement);
    };
    let Some(rest) = behind_mark(rest, Mark::Colon) else {
        return Err(ParseErr::NotAStatement);
    };
    let (members, rest) = members(alloc, rest)?;
    let over = last_over(alloc, rest)?;
    Ok(Shares {
        limit,
        members,
        over,
    })
}

/// The members at the front, of which there may be none, and the symbols behind them.
fn members(alloc: Global, symbols: &[Symbol]) -> Result<(List<Ranged<Share>>, &[Symbol]), ParseErr>
    ensures read { MatchResult result
        (λ p. Found (spell_list (spell_ranged spell_share)) (EndsList EndsShare)
        (seen_line symbols.now) (seen_line p.1.now) (map (seen_ranged seen_share) p.0))
        (λ e. HasCause (spell_list (spell_ranged spell_share)) (EndsList EndsShare)
        (seen_line symbols.now) e) }
{
    let Some(_) = front_name(symbols) else {
        return Ok((List::new(alloc), symbols));
    };
    let (first, rest) = member(alloc, symbols)?;
    let (list, rest) = members_behind(alloc, first, rest)?;
    Ok((list, rest))
}

/// Members behind commas, appended to the first one, and the symbols behind them.
fn members_behind(
    alloc: Global,
    first: Ranged<Share>,
    symbols: &[Symbol],
) -> Result<(List<Ranged<Share>>, &[Symbol]), ParseErr>
    ensures read { MatchResult result
        (λ p. ReadsMore (spell_more (spell_ranged spell_share)) (EndsList EndsShare) (λ xs. xs)
        (seen_line symbols.now) (seen_line p.1.now) (seen_ranged seen_share first ∷ [])
        (map (seen_ranged seen_share) p.0))
        (λ e. HasCause (spell_more (spell_ranged spell_share)) (EndsList EndsShare)
        (seen_line symbols.now) e) }
{
    let mut list = List::new(alloc);
    list.push(first)?;
    let mut rest = symbols;
    while let Some(behind) = behind_mark(rest, Mark::Comma) {
        let (next, after) = member(alloc, behind)?;
        list.push(next)?;
        rest = after;
    }
    Ok((list, rest))
}

/// The member with its ranges at the front, and the symbols behind it.
fn member(alloc: Global, symbols: &[Symbol]) -> Result<(Ranged<Share>, &[Symbol]), ParseErr>
    ensures read { MatchResult result
        (λ p. Found (spell_ranged spell_share) EndsShare (seen_line symbols.now) (seen_line p.1.now)
        (seen_ranged seen_share p.0))
        (λ e. HasCause (spell_ranged spell_share) EndsShare (seen_line symbols.now) e) }
{
    let (item, rest) = share(alloc, symbols)?;
    let (ranges, rest) = ranges(alloc, rest)?;
    Ok((Ranged { item, ranges }, rest))
}

/// The member at the front without its ranges, and the symbols behind it.
fn share(alloc: Global, symbols: &[Symbol]) -> Result<(Share, &[Symbol]), ParseErr>
    ensures read { MatchResult result
        (λ p. Found spell_share EndsNumber (seen_line symbols.now) (seen_line p.1.now)
        (seen_share p.0))
        (λ e. HasCause spell_share EndsNumber (seen_line symbols.now) e) }
{
    let (name, rest) = reference(alloc, symbols)?;
    let Some(rest) = behind_word(rest, Keyword::At) else {
        return Err(ParseErr::NotAStatement);
    };
    let Some((centre, rest)) = signed(rest) else {
        return Err(ParseErr::NotAStatement);
    };
    let Some(rest) = behind_word(rest, Keyword::By) else {
        return Err(ParseErr::NotAStatement);
    };
    let Some((deviation, rest)) = number(rest) else {
        return Err(ParseErr::NotAStatement);
    };
    let share = Share {
        name,
        centre,
        deviation,
    };
    Ok((share, rest))
}
