//! Indices, and names with indices.

ghost use Rattle.std.specs.Prelude.{◌≡◌, [], ◌∷◌, map, MatchOption, MatchResult};
ghost use Rattle.rob_index.specs.Grammar.{spell_atom, spell_steps, spell_index, spell_more, spell_indices, spell_ref};
ghost use Rattle.rob_syntax.specs.Fronts.{BeginsNone, EndsIndex, EndsRef, EndsList, Found, HasCause, ReadsMore};
ghost use Rattle.rob_syntax.specs.SeenSymbols.{seen_line};
ghost use Rattle.rob_syntax.specs.Seen.{seen_atom, seen_step, seen_index, seen_ref};

use crate::error::ParseErr;
use crate::indexed::front::{behind_mark, front_digits, front_name, front_sign};
use crate::symbol::{Mark, Symbol};
use crate::syntax::{Atom, Index, Ref, Step};
use rob_number::List;
use std::alloc::Global;

/// The atom that is the first symbol, and the symbols behind it.
fn atom(symbols: &[Symbol]) -> Option<(Atom, &[Symbol])>
    ensures read { MatchOption result (BeginsNone spell_atom (seen_line symbols.now))
        (λ p. seen_line symbols.now ≡ spell_atom (seen_atom p.0) ∷ seen_line p.1.now) }
{
    if let Some((digits, rest)) = front_digits(symbols) {
        return Some((Atom::Digits(digits), rest));
    }
    let (name, rest) = front_name(symbols)?;
    Some((Atom::Bound(name), rest))
}

/// The atoms that are added and subtracted at the front, and the symbols behind them.
fn steps(alloc: Global, symbols: &[Symbol]) -> Result<(List<Step>, &[Symbol]), ParseErr>
    ensures read { MatchResult result
        (λ p. Found spell_steps EndsIndex (seen_line symbols.now) (seen_line p.1.now)
        (map seen_step p.0))
        (λ e. HasCause spell_steps EndsIndex (seen_line symbols.now) e) }
{
    let mut list = List::new(alloc);
    let mut rest = symbols;
    while let Some((minus, behind)) = front_sign(rest) {
        let Some((atom, after)) = atom(behind) else {
            return Err(ParseErr::NotAStatement);
        };
        list.push(Step { minus, atom })?;
        rest = after;
    }
    Ok((list, rest))
}

/// The index at the front, and the symbols behind it.
pub fn index(alloc: Global, symbols: &[Symbol]) -> Result<(Index, &[Symbol]), ParseErr>
    ensures read { MatchResult result
        (λ p. Found spell_index EndsIndex (seen_line symbols.now) (seen_line p.1.now)
        (seen_index p.0))
        (λ e. HasCause spell_index EndsIndex (seen_line symbols.now) e) }
{
    let Some((first, rest)) = atom(symbols) else {
        return Err(ParseErr::NotAStatement);
    };
    let (more, rest) = steps(alloc, rest)?;
    Ok((Index { first, more }, rest))
}

/// Indices behind commas, appended to the first one, and the symbols behind them.
fn indices(
    alloc: Global,
    first: Index,
    symbols: &[Symbol],
) -> Result<(List<Index>, &[Symbol]), ParseErr>
    ensures read { MatchResult result
        (λ p. ReadsMore (spell_more spell_index) (EndsList EndsIndex) (λ xs. xs)
        (seen_line symbols.now) (seen_line p.1.now) (seen_index first ∷ []) (map seen_index p.0))
        (λ e. HasCause (spell_more spell_index) (EndsList EndsIndex) (seen_line symbols.now) e) }
{
    let mut list = List::new(alloc);
    list.push(first)?;
    let mut rest = symbols;
    while let Some(behind) = behind_mark(rest, Mark::Comma) {
        let (next, after) = index(alloc, behind)?;
        list.push(next)?;
        rest = after;
    }
    Ok((list, rest))
}

/// The name with its indices at the front, and the symbols behind it.
pub fn reference(alloc: Global, symbols: &[Symbol]) -> Result<(Ref, &[Symbol]), ParseErr>
    ensures read { MatchResult result
        (λ p. Found spell_ref EndsRef (seen_line symbols.now) (seen_line p.1.now) (seen_ref p.0))
        (λ e. HasCause spell_ref EndsRef (seen_line symbols.now) e) }
{
    let Some((name, rest)) = front_name(symbols) else {
        return Err(ParseErr::NotAStatement);
    };
    let (indices, rest) = brackets(alloc, rest)?;
    Ok((Ref { name, indices }, rest))
}

/// The indices in brackets at the front, or none, and the symbols behind them.
fn brackets(alloc: Global, symbols: &[Symbol]) -> Result<(List<Index>, &[Symbol]), ParseErr>
    ensures read { MatchResult result
        (λ p. Found spell_indices EndsRef (seen_line symbols.now) (seen_line p.1.now)
        (map seen_index p.0))
        (λ e. HasCause spell_indices EndsRef (seen_line symbols.now) e) }
{
    let Some(inside) = behind_mark(symbols, Mark::OpenBracket) else {
        return Ok((List::new(alloc), symbols));
    };
    let (first, rest) = index(alloc, inside)?;
    let (list, rest) = indices(alloc, first, rest)?;
    match behind_mark(rest, Mark::CloseBracket) {
        Some(rest) => Ok((list, rest)),
        None => Err(ParseErr::NotAStatement),
    }
}
