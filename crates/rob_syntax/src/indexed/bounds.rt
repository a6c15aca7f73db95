//! Bounds as they are written.

ghost use Rattle.std.specs.Prelude.{MatchOption};
ghost use Rattle.std.specs.Option.{option_map};
ghost use Rattle.rob_index.specs.Grammar.{spell_bounds};
ghost use Rattle.rob_syntax.specs.Fronts.{Ends, EndsBounds, Found, IsMissing};
ghost use Rattle.rob_syntax.specs.Parts.{spell_interval};
ghost use Rattle.rob_syntax.specs.SeenSymbols.{seen_line};
ghost use Rattle.rob_syntax.specs.Seen.{seen_signed, seen_bounds};

use crate::indexed::front::{behind_mark, behind_word};
use crate::indexed::number::signed;
use crate::symbol::{Keyword, Mark, Symbol};
use crate::syntax::{Bounds, Interval};

/// The bounds at the front, or none, and the symbols behind them.
pub fn bounds(symbols: &[Symbol]) -> Option<(Option<Bounds>, &[Symbol])>
    ensures read { MatchOption result (IsMissing spell_bounds EndsBounds (seen_line symbols.now))
        (λ p. Found spell_bounds EndsBounds (seen_line symbols.now) (seen_line p.1.now)
        (option_map seen_bounds p.0)) }
{
    if let Some(behind) = behind_mark(symbols, Mark::AtLeast) {
        let (lower, rest) = signed(behind)?;
        return Some((Some(Bounds::AtLeast(lower)), rest));
    }
    if let Some(behind) = behind_mark(symbols, Mark::AtMost) {
        let (upper, rest) = signed(behind)?;
        return Some((Some(Bounds::AtMost(upper)), rest));
    }
    let Some(behind) = behind_word(symbols, Keyword::In) else {
        return Some((None, symbols));
    };
    let (both, rest) = interval(behind)?;
    Some((Some(Bounds::Between(both)), rest))
}

/// Two numbers in brackets with a comma between them at the front, and the symbols behind them.
fn interval(symbols: &[Symbol]) -> Option<(Interval, &[Symbol])>
    ensures read { MatchOption result (IsMissing spell_interval Ends (seen_line symbols.now))
        (λ p. Found spell_interval Ends (seen_line symbols.now) (seen_line p.1.now)
        (seen_signed p.0.lower, seen_signed p.0.upper)) }
{
    let inside = behind_mark(symbols, Mark::OpenBracket)?;
    let (lower, rest) = signed(inside)?;
    let rest = behind_mark(rest, Mark::Comma)?;
    let (upper, rest) = signed(rest)?;
    let rest = behind_mark(rest, Mark::CloseBracket)?;
    Some((Interval { lower, upper }, rest))
}
