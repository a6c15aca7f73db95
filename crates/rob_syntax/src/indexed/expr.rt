//! Expressions with indices, and sums over a range. A call goes into an expression only behind an opening parenthesis,
//! so calls are as deep as parentheses are, of which a line that is read has fifty open at most.

ghost use Rattle.std.specs.Prelude.{◌≡◌, [], ◌∷◌, false, map, IfOk, MatchBool, MatchResult};
ghost use Rattle.rob_index.specs.Symbols.{sign};
ghost use Rattle.rob_index.specs.Symbols as is;
ghost use Rattle.rob_index.specs.Grammar.{sign_of, spell_factor, spell_factors, spell_term, spell_terms, spell_expr, tree_factor, tree_term, tree_expr};
ghost use Rattle.rob_syntax.specs.Fronts.{BeginsNot, BeginsNone, Ends, EndsFactor, EndsTerm, EndsExpr, HasCause, Reads, ReadsMore};
ghost use Rattle.rob_syntax.specs.Parts.{spell_closed, spell_summed, tree_summed, factor_trees, term_parts};
ghost use Rattle.rob_syntax.specs.SeenSymbols.{seen_line};
ghost use Rattle.rob_syntax.specs.Seen.{seen_tree, seen_part};

use crate::error::ParseErr;
use crate::indexed::front::{behind_mark, behind_word, front_sign};
use crate::indexed::index::reference;
use crate::indexed::number::{front_minus, number};
use crate::indexed::range::range;
use crate::symbol::{Keyword, Mark, Symbol};
use crate::syntax::{Part, Tree};
use rob_number::{List, Memory};
use std::alloc::Global;

/// The expression at the front, and the symbols behind it.
#[cycle(indexed_expr)]
pub fn expr<'a>(alloc: Global, symbols: &'a [Symbol]) -> Result<(Tree, &'a [Symbol]), ParseErr>
    ensures read { MatchResult result
        (λ p. Reads spell_expr EndsExpr tree_expr (seen_line symbols.now) (seen_line p.1.now)
        (seen_tree p.0))
        (λ e. HasCause spell_expr EndsExpr (seen_line symbols.now) e) }
{
    let (minus, rest) = front_minus(symbols);
    let (first, rest) = term(alloc, rest)?;
    if is_one_term(minus, rest) {
        return Ok((first, rest));
    }
    let (parts, rest) = parts(
        alloc,
        Part {
            minus,
            inner: first,
        },
        rest,
    )?;
    Ok((Tree::Sum(parts), rest))
}

/// Further terms with their signs, appended to the first one, and the symbols behind them.
#[cycle(indexed_expr)]
fn parts<'a>(
    alloc: Global,
    first: Part,
    symbols: &'a [Symbol],
) -> Result<(List<Part>, &'a [Symbol]), ParseErr>
    ensures read { MatchResult result
        (λ p. ReadsMore spell_terms EndsExpr term_parts (seen_line symbols.now) (seen_line p.1.now)
        (seen_part first ∷ []) (map seen_part p.0) × BeginsNone sign_of (seen_line p.1.now))
        (λ e. HasCause spell_terms EndsExpr (seen_line symbols.now) e) }
{
    let mut list = List::new(alloc);
    list.push(first)?;
    let mut rest = symbols;
    while let Some((minus, behind)) = front_sign(rest) {
        let (inner, after) = term(alloc, behind)?;
        list.push(Part { minus, inner })?;
        rest = after;
    }
    Ok((list, rest))
}

/// The term at the front, and the symbols behind it.
#[cycle(indexed_expr)]
fn term<'a>(alloc: Global, symbols: &'a [Symbol]) -> Result<(Tree, &'a [Symbol]), ParseErr>
    ensures read { MatchResult result
        (λ p. Reads spell_term EndsTerm tree_term (seen_line symbols.now) (seen_line p.1.now)
        (seen_tree p.0))
        (λ e. HasCause spell_term EndsTerm (seen_line symbols.now) e) }
{
    let (first, rest) = factor(alloc, symbols)?;
    let Some(_) = behind_mark(rest, Mark::Star) else {
        return Ok((first, rest));
    };
    let (factors, rest) = factors(alloc, first, rest)?;
    Ok((Tree::Product(factors), rest))
}

/// Further factors, appended to the first one, and the symbols behind them.
#[cycle(indexed_expr)]
fn factors<'a>(
    alloc: Global,
    first: Tree,
    symbols: &'a [Symbol],
) -> Result<(List<Tree>, &'a [Symbol]), ParseErr>
    ensures read { MatchResult result
        (λ p. ReadsMore spell_factors EndsTerm factor_trees (seen_line symbols.now)
        (seen_line p.1.now) (seen_tree first ∷ []) (map seen_tree p.0)
        × BeginsNot (sign is.star) (seen_line p.1.now))
        (λ e. HasCause spell_factors EndsTerm (seen_line symbols.now) e) }
{
    let mut list = List::new(alloc);
    list.push(first)?;
    let mut rest = symbols;
    while let Some(behind) = behind_mark(rest, Mark::Star) {
        let (next, after) = factor(alloc, behind)?;
        list.push(next)?;
        rest = after;
    }
    Ok((list, rest))
}

/// The factor at the front, and the symbols behind it.
#[cycle(indexed_expr)]
fn factor<'a>(alloc: Global, symbols: &'a [Symbol]) -> Result<(Tree, &'a [Symbol]), ParseErr>
    ensures read { MatchResult result
        (λ p. Reads spell_factor EndsFactor tree_factor (seen_line symbols.now) (seen_line p.1.now)
        (seen_tree p.0))
        (λ e. HasCause spell_factor EndsFactor (seen_line symbols.now) e) }
{
    if let Some((numeral, rest)) = number(symbols) {
        return Ok((Tree::Number(numeral), rest));
    }
    if let Some(inside) = behind_mark(symbols, Mark::Open) {
        let (inner, rest) = closed(alloc, inside)?;
        return Ok((inner, rest));
    }
    if let Some(behind) = behind_word(symbols, Keyword::Sum) {
        let (sum, rest) = summed(alloc, behind)?;
        return Ok((sum, rest));
    }
    let (name, rest) = reference(alloc, symbols)?;
    Ok((Tree::Ref(name), rest))
}

/// The expression at the front with a closing parenthesis behind it, and the symbols behind that.
#[cycle(indexed_expr)]
fn closed<'a>(alloc: Global, symbols: &'a [Symbol]) -> Result<(Tree, &'a [Symbol]), ParseErr>
    ensures read { MatchResult result
        (λ p. Reads spell_closed Ends tree_expr (seen_line symbols.now) (seen_line p.1.now)
        (seen_tree p.0))
        (λ e. HasCause spell_closed Ends (seen_line symbols.now) e) }
{
    let (inner, rest) = expr(alloc, symbols)?;
    match behind_mark(rest, Mark::Close) {
        Some(rest) => Ok((inner, rest)),
        None => Err(ParseErr::NotAStatement),
    }
}

/// What stands in parentheses behind `sum`: a range and an expression; and the symbols behind it.
#[cycle(indexed_expr)]
fn summed<'a>(alloc: Global, symbols: &'a [Symbol]) -> Result<(Tree, &'a [Symbol]), ParseErr>
    ensures read { MatchResult result
        (λ p. Reads spell_summed Ends tree_summed (seen_line symbols.now) (seen_line p.1.now)
        (seen_tree p.0))
        (λ e. HasCause spell_summed Ends (seen_line symbols.now) e) }
{
    let Some(inside) = behind_mark(symbols, Mark::Open) else {
        return Err(ParseErr::NotAStatement);
    };
    let (range, rest) = range(alloc, inside)?;
    let Some(rest) = behind_mark(rest, Mark::Colon) else {
        return Err(ParseErr::NotAStatement);
    };
    let (inner, rest) = closed(alloc, rest)?;
    let inner = boxed(alloc, inner)?;
    Ok((Tree::Ranged(range, inner), rest))
}

/// The tree in a box of its own.
fn boxed(alloc: Global, tree: Tree) -> Result<Box<Tree>, Memory>
    ensures boxed { IfOk result (λ b. b.value ≡ tree) }
{
    Ok(Box::new(alloc, tree)?)
}

/// Whether a term with these symbols behind it is a whole expression.
fn is_one_term(minus: bool, symbols: &[Symbol]) -> bool
    ensures one_term { MatchBool result ((minus ≡ false)
        × BeginsNone sign_of (seen_line symbols.now))
        (minus ≡ false → BeginsNone sign_of (seen_line symbols.now) → ⊥) }
{
    if minus {
        return false;
    }
    match front_sign(symbols) {
        Some(_) => false,
        None => true,
    }
}
