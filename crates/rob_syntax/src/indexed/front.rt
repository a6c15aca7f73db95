//! The first symbol of some, and those behind it.

ghost use Rattle.std.specs.Prelude.{◌≡◌, ◌∷◌, MatchOption};
ghost use Rattle.rob_index.specs.Symbols.{name, digits, sign, word};
ghost use Rattle.rob_index.specs.Grammar.{sign_of};
ghost use Rattle.rob_syntax.specs.Fronts.{BeginsNot, BeginsNone};
ghost use Rattle.rob_syntax.specs.SeenSymbols.{seen_mark, seen_keyword, seen_line};

use crate::symbol;
use crate::symbol::{Keyword, Mark, Symbol};

/// The symbols behind the sign, if it is the first.
pub fn behind_mark(symbols: &[Symbol], mark: Mark) -> Option<&[Symbol]>
    ensures read { MatchOption result (BeginsNot (sign (seen_mark mark)) (seen_line symbols.now))
        (λ rest. seen_line symbols.now ≡ sign (seen_mark mark) ∷ seen_line rest.now) }
{
    match symbol::behind_mark(symbols, mark) {
        Some(rest) => Some(rest),
        None => None,
    }
}

/// The symbols behind the keyword, if it is the first.
pub fn behind_word(symbols: &[Symbol], keyword: Keyword) -> Option<&[Symbol]>
    ensures read { MatchOption result (BeginsNot (word (seen_keyword keyword))
        (seen_line symbols.now))
        (λ rest. seen_line symbols.now ≡ word (seen_keyword keyword) ∷ seen_line rest.now) }
{
    match symbol::behind_word(symbols, keyword) {
        Some(rest) => Some(rest),
        None => None,
    }
}

/// The digits that are the first symbol, and the symbols behind them.
pub fn front_digits(symbols: &[Symbol]) -> Option<(u64, &[Symbol])>
    ensures read { MatchOption result (BeginsNone digits (seen_line symbols.now))
        (λ p. seen_line symbols.now ≡ digits p.0 ∷ seen_line p.1.now) }
{
    match symbol::front_digits(symbols) {
        Some((digits, rest)) => Some((digits, rest)),
        None => None,
    }
}

/// The name that is the first symbol, and the symbols behind it.
pub fn front_name(symbols: &[Symbol]) -> Option<(usize, &[Symbol])>
    ensures read { MatchOption result (BeginsNone name (seen_line symbols.now))
        (λ p. seen_line symbols.now ≡ name p.0 ∷ seen_line p.1.now) }
{
    match symbol::front_name(symbols) {
        Some((name, rest)) => Some((name, rest)),
        None => None,
    }
}

/// Whether the sign at the front is `-`, where it is `+` or `-`, and the symbols behind it.
pub fn front_sign(symbols: &[Symbol]) -> Option<(bool, &[Symbol])>
    ensures read { MatchOption result (BeginsNone sign_of (seen_line symbols.now))
        (λ p. seen_line symbols.now ≡ sign_of p.0 ∷ seen_line p.1.now) }
{
    if let Some(rest) = behind_mark(symbols, Mark::Minus) {
        return Some((true, rest));
    }
    let rest = behind_mark(symbols, Mark::Plus)?;
    Some((false, rest))
}
