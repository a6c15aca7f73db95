//! The first lines of a tree's text: what it claims, and the leaf that shows it.

ghost use Rattle.std.specs.Fmt.{signed_decimal};
ghost use Rattle.std.specs.Prelude.{◌≡◌, ◌≢◌, ◌∷◌, [], ◌≤◌, codes, nat_abs, MatchOption, MatchResult};
ghost use Rattle.rob_cert.specs.Reading.{words_in};
ghost use Rattle.rob_cert.specs.View.{status_of};
ghost use Rattle.rob_number.specs.Counts.{NeverFell};
ghost use Rattle.rob_tree.specs.Parts.{HasBestCause, IsBestRead, IsClaim, IsClaimRead};
ghost use Rattle.rob_tree.specs.ClaimLines.{HasBest, IsBestFault, IsClaimCause, IsClaimFault, IsWholeWord, greatest_leaf};

use crate::error::Offence;
use rob_cert::Status;
use rob_cert::cursor::{split_byte, three_words, two_words};
use rob_cert::number::read_number;
use rob_model::numbers::zero;
use rob_number::{Exact, Frac, Ledger};

/// What a tree claims.
#[derive(Clone, Copy, Debug)]
pub struct Claim<N> {
    pub status: Status,
    /// The optimum; 0 where the status is another.
    pub value: N,
}

/// What a tree claims, and what is left behind its line.
#[derive(Clone, Copy, Debug)]
pub struct Claimed<'a, N> {
    pub claim: Claim<N>,
    pub rest: &'a [u8],
}

/// The number that is told for the leaf that shows the status, or 0 where none does, and what is left behind its line.
#[derive(Clone, Copy, Debug)]
pub struct Shown<'a> {
    pub best: i64,
    pub rest: &'a [u8],
    /// The number of the next line.
    pub line: u32,
}

/// The whole number that a word spells, where it fits.
pub fn read_whole<N: Exact, L: Ledger>(word: &[u8], ledger: &mut L) -> Option<i64>
    ensures whole { MatchOption result (IsWholeWord N.limit word.now → ⊥)
        (λ z. (nat_abs z ≤ N.limit) × (word.now ≡ signed_decimal z)) }
    ensures counted { NeverFell L.ops L.wides ledger.old ledger.new }
{
    match read_number::<N, L>(word, ledger) {
        None => None,
        Some(number) => {
            if number.den() == 1 {
                Some(number.num())
            } else {
                None
            }
        }
    }
}

/// The claim that a line of an optimum makes.
fn read_optimum<N: Exact, L: Ledger>(line: &[u8], ledger: &mut L) -> Result<Claim<N>, Offence>
    requires other { (line.now ≢ codes "tree infeasible") × (line.now ≢ codes "tree unbounded") }
    ensures claim { MatchResult result
        (λ c. IsClaim (words_in line.now) (status_of c.status) (N.value c.value))
        (λ o. IsClaimFault N.limit (words_in line.now) o) }
    ensures counted { NeverFell L.ops L.wides ledger.old ledger.new }
{
    match three_words(line) {
        None => Err(Offence::NoLine),
        Some(words) => {
            if words.first != b"tree".as_slice() || words.second != b"optimal".as_slice() {
                return Err(Offence::NoLine);
            }
            match read_number(words.third, ledger) {
                None => Err(Offence::NoNumber),
                Some(value) => Ok(Claim {
                    status: Status::Optimal,
                    value,
                }),
            }
        }
    }
}

/// The claim that a line makes.
fn claim_of<N: Exact, L: Ledger>(line: &[u8], ledger: &mut L) -> Result<Claim<N>, Offence>
    ensures claim { MatchResult result
        (λ c. IsClaim (words_in line.now) (status_of c.status) (N.value c.value))
        (λ o. IsClaimFault N.limit (words_in line.now) o) }
    ensures counted { NeverFell L.ops L.wides ledger.old ledger.new }
{
    if line == b"tree infeasible".as_slice() {
        Ok(Claim {
            status: Status::Infeasible,
            value: zero(ledger),
        })
    } else if line == b"tree unbounded".as_slice() {
        Ok(Claim {
            status: Status::Unbounded,
            value: zero(ledger),
        })
    } else {
        read_optimum(line, ledger)
    }
}

/// What the first line of a text claims.
pub fn read_claim<'a, N: Exact, L: Ledger>(
    text: &'a [u8],
    ledger: &mut L,
) -> Result<Claimed<'a, N>, Offence>
    ensures claim { MatchResult result
        (λ c. IsClaimRead text.now (status_of c.claim.status) (N.value c.claim.value) c.rest.now)
        (λ o. IsClaimCause N.limit text.now o) }
    ensures counted { NeverFell L.ops L.wides ledger.old ledger.new }
{
    match split_byte(text, b'\n') {
        None => Err(Offence::NoLine),
        Some(split) => match claim_of(split.front, ledger) {
            Err(offence) => Err(offence),
            Ok(claim) => Ok(Claimed {
                claim,
                rest: split.back,
            }),
        },
    }
}

/// The number that a word tells for a leaf: a whole number of at most 32 bits, at any width.
fn read_leaf<L: Ledger>(word: &[u8], ledger: &mut L) -> Option<i64>
    ensures whole { MatchOption result (IsWholeWord greatest_leaf word.now → ⊥)
        (λ z. (nat_abs z ≤ greatest_leaf) × (word.now ≡ signed_decimal z)) }
    ensures counted { NeverFell L.ops L.wides ledger.old ledger.new }
{
    read_whole::<Frac<32>, L>(word, ledger)
}

/// The number that a line of the leaf that shows the status tells.
fn best_of<L: Ledger>(line: &[u8], ledger: &mut L) -> Result<i64, Offence>
    ensures best { MatchResult result
        (λ z. (nat_abs z ≤ greatest_leaf)
        × (words_in line.now ≡ codes "best" ∷ (signed_decimal z ∷ [])))
        (λ o. IsBestFault (words_in line.now) o) }
    ensures counted { NeverFell L.ops L.wides ledger.old ledger.new }
{
    match two_words(line) {
        None => Err(Offence::NoLine),
        Some(words) => {
            if words.first != b"best".as_slice() {
                return Err(Offence::NoLine);
            }
            match read_leaf(words.second, ledger) {
                None => Err(Offence::NoNumber),
                Some(best) => Ok(best),
            }
        }
    }
}

/// The number that the first line of a text tells for the leaf that shows the status.
fn read_shown<'a, L: Ledger>(
    status: Status,
    text: &'a [u8],
    ledger: &mut L,
) -> Result<Shown<'a>, Offence>
    requires has { HasBest (status_of status) }
    ensures shown { MatchResult result
        (λ s. IsBestRead (status_of status) text.now s.best s.rest.now s.line)
        (λ o. HasBestCause (status_of status) text.now o) }
    ensures counted { NeverFell L.ops L.wides ledger.old ledger.new }
{
    match split_byte(text, b'\n') {
        None => Err(Offence::NoLine),
        Some(split) => match best_of(split.front, ledger) {
            Err(offence) => Err(offence),
            Ok(best) => Ok(Shown {
                best,
                rest: split.back,
                line: 3,
            }),
        },
    }
}

/// The line of the leaf that shows the status, where the status has one.
pub fn read_best<'a, L: Ledger>(
    status: Status,
    text: &'a [u8],
    ledger: &mut L,
) -> Result<Shown<'a>, Offence>
    ensures shown { MatchResult result
        (λ s. IsBestRead (status_of status) text.now s.best s.rest.now s.line)
        (λ o. HasBestCause (status_of status) text.now o) }
    ensures counted { NeverFell L.ops L.wides ledger.old ledger.new }
{
    match status {
        Status::Optimal => read_shown(status, text, ledger),
        Status::Infeasible => Ok(Shown {
            best: 0,
            rest: text,
            line: 2,
        }),
        Status::Unbounded => read_shown(status, text, ledger),
    }
}
