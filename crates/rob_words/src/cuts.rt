//! Cuts of the set, each in a word.

ghost use Rattle.std.specs.Prelude.{◌≡◌, MatchOption};
ghost use Rattle.rob_words.specs.Cuts.{IsCut, IsSigned, SpellsCut, has_sign, unsigned};
ghost use Rattle.rob_words.specs.Limits.{denominator_of, numerator_of};

use crate::limits::limit;
use crate::names::is_name;

/// The most cuts that a word may list.
pub const MOST_CUTS: usize = 3;

/// A cut as a word spells it: the parameter's name, and the number as its sign, its numerator and its denominator.
#[derive(Debug, Clone, Copy)]
pub struct CutWord<'a> {
    pub name: &'a str,
    pub negative: bool,
    pub numerator: u64,
    pub denominator: u64,
}

/// The cut that a word spells. Its denominator isn't 0, and both parts of its number are at most the greatest number.
pub fn cut<'a>(word: &'a str, greatest: u64) -> Option<CutWord<'a>>
    ensures cut { MatchOption result
        (IsCut greatest word.now → ⊥)
        (λ cut. IsCut greatest word.now × SpellsCut word.now cut) }
{
    match word.split_once('=') {
        Some((name, level)) => {
            if !is_name(name.as_bytes()) {
                return None;
            }
            let (negative, numerator, denominator) = signed(level, greatest)?;
            Some(CutWord {
                name,
                negative,
                numerator,
                denominator,
            })
        }
        None => None,
    }
}

/// The number that a word spells, with or without a sign: whether it has one, and the two parts of what stands behind
/// it.
fn signed(word: &str, greatest: u64) -> Option<(bool, u64, u64)>
    ensures signed { MatchOption result
        (IsSigned greatest word.now → ⊥)
        (λ parts. IsSigned greatest word.now × ((parts.0 ≡ has_sign word.now)
        × ((parts.1 ≡ numerator_of (unsigned word.now)) × (parts.2 ≡ denominator_of (unsigned word.now))))) }
{
    let (negative, number) = behind_sign(word);
    let (numerator, denominator) = limit(number, greatest)?;
    Some((negative, numerator, denominator))
}

/// Whether the word begins with a sign, and what stands behind that.
fn behind_sign(word: &str) -> (bool, &str)
    ensures sign { result.0 ≡ has_sign word.now }
    ensures number { result.1.now ≡ unsigned word.now }
{
    match word.strip_prefix('-') {
        Some(rest) => (true, rest),
        None => (false, word),
    }
}
