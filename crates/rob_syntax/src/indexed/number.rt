//! Numbers as they are written.

ghost use Rattle.std.specs.Prelude.{MatchOption};
ghost use Rattle.rob_index.specs.Symbols.{sign};
ghost use Rattle.rob_index.specs.Symbols as is;
ghost use Rattle.rob_index.specs.Grammar.{spell_divisor, spell_minus, spell_number, spell_signed};
ghost use Rattle.rob_syntax.specs.Fronts.{BeginsNot, EndsNumber, Found, IsMissing};
ghost use Rattle.rob_syntax.specs.SeenSymbols.{seen_line};
ghost use Rattle.rob_syntax.specs.Seen.{seen_numeral, seen_signed};

use crate::indexed::front::{behind_mark, front_digits};
use crate::symbol::{Mark, Symbol};
use crate::syntax::{Numeral, Signed};

/// The number at the front, and the symbols behind it.
pub fn number(symbols: &[Symbol]) -> Option<(Numeral, &[Symbol])>
    ensures read { MatchOption result (IsMissing spell_number EndsNumber (seen_line symbols.now))
        (λ p. Found spell_number EndsNumber (seen_line symbols.now) (seen_line p.1.now)
        (seen_numeral p.0)) }
{
    let (numerator, rest) = front_digits(symbols)?;
    let (divisor, rest) = divisor(rest)?;
    Some((Numeral { numerator, divisor }, rest))
}

/// The digits behind a `/` at the front, or none, and the symbols behind them.
fn divisor(symbols: &[Symbol]) -> Option<(Option<u64>, &[Symbol])>
    ensures read { MatchOption result (IsMissing spell_divisor EndsNumber (seen_line symbols.now))
        (λ p. Found spell_divisor EndsNumber (seen_line symbols.now) (seen_line p.1.now) p.0) }
{
    let Some(behind) = behind_mark(symbols, Mark::Slash) else {
        return Some((None, symbols));
    };
    let (digits, rest) = front_digits(behind)?;
    Some((Some(digits), rest))
}

/// Whether a `-` stands at the front, and the symbols behind it.
pub fn front_minus(symbols: &[Symbol]) -> (bool, &[Symbol])
    ensures read { Found spell_minus (BeginsNot (sign is.minus)) (seen_line symbols.now)
        (seen_line result.1.now) result.0 }
{
    match behind_mark(symbols, Mark::Minus) {
        Some(rest) => (true, rest),
        None => (false, symbols),
    }
}

/// The number with its sign at the front, and the symbols behind it.
pub fn signed(symbols: &[Symbol]) -> Option<(Signed, &[Symbol])>
    ensures read { MatchOption result (IsMissing spell_signed EndsNumber (seen_line symbols.now))
        (λ p. Found spell_signed EndsNumber (seen_line symbols.now) (seen_line p.1.now)
        (seen_signed p.0)) }
{
    let (minus, rest) = front_minus(symbols);
    let (number, rest) = number(rest)?;
    Some((Signed { minus, number }, rest))
}
