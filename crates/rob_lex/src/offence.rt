//! What may offend at a place, and which piece comes next where nothing does.

ghost use Rattle.std.specs.Prelude.{◌≡◌, ◌<◌, length, [], MatchResult, MatchOption};
ghost use Rattle.rob_lex.specs.Offences.{Cause, rule_of, OffendsHere};
ghost use Rattle.rob_lex.specs.Found.{IsFree};

use crate::piece::{Found, Shape, front_piece};
use crate::place::Place;
use crate::weights::weight;

/// The tokens that a text may have, line ends among them.
pub const MOST_TOKENS: u32 = 20_000;

/// The parentheses that may be open at once on a line, where one directly behind `sum` counts as two.
const MOST_OPEN: u32 = 50;

/// What may be wrong at a place of a text.
#[derive(Clone, Copy, Debug, PartialEq, Eq)]
pub enum Offence {
    /// A byte of 128 or more outside a comment.
    NotAscii,
    /// Another byte that begins no token, no comment and separates none.
    BadByte,
    /// A token more than `MOST_TOKENS`.
    TooManyTokens,
    /// An open parenthesis more than `MOST_OPEN`.
    TooDeep,
}

impl Offence {
    /// The number of the rule that the offence breaks.
    pub fn rule(self) -> u8
        ensures rule { result ≡ rule_of self }
    {
        match self {
            Offence::NotAscii => 1,
            Offence::BadByte => 2,
            Offence::TooManyTokens => 3,
            Offence::TooDeep => 4,
        }
    }
}

/// The piece behind the place, or what offends there.
pub fn next_piece(at: &Place, rest: &[u8]) -> Result<Found, Offence>
    requires some { 0 < length rest.now }
    ensures piece { MatchResult result
        (λ found. IsFree at.now rest.now found) (λ offence. OffendsHere at.now rest.now offence) }
{
    let Some(found) = front_piece(rest) else {
        return Err(if rest[0] < 128 {
            Offence::BadByte
        } else {
            Offence::NotAscii
        });
    };
    if let Shape::Lexeme(_) = found.shape {
        if at.count >= MOST_TOKENS {
            return Err(Offence::TooManyTokens);
        }
        let room = MOST_OPEN - weight(at.behind_sum);
        if at.weights.depth() > room && rest[0] == b'(' {
            return Err(Offence::TooDeep);
        }
    }
    Ok(found)
}

/// What offends at the end of the text.
pub fn end_offence(at: &Place) -> Option<Offence>
    ensures offence { MatchOption result (Cause at.now [] → ⊥)
        (λ offence. OffendsHere at.now [] offence) }
{
    if at.begun && at.count >= MOST_TOKENS {
        Some(Offence::TooManyTokens)
    } else {
        None
    }
}
