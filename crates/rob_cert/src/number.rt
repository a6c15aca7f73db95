//! Numbers as they are spelled in a text.

ghost use Rattle.std.specs.Fmt.{decimal, signed_decimal};
ghost use Rattle.std.specs.Prelude.{◌≡◌, ◌-◌, ◌^◌, ◌<◌, ◌++◌, ◌<ℤ◌, ◌↔◌, ℕ, ℤ, List, Some, codes, pos, nat_abs, IfSome, IsTrue, MatchOption, if◌then◌else◌, ◌==◌, []};
ghost use Rattle.rob_number.specs.Counts.{NeverFell};
ghost use Rattle.rob_algebra.specs.Fraction.{Fraction};
ghost use Rattle.rob_algebra.specs.Width.{Fits};
ghost use Rattle.rob_cert.specs.Spelling.{number_text};

use crate::cursor::split_byte;
use itoa::Buffer;
use rob_number::{Exact, Ledger};

/// A numerator and a denominator.
#[derive(Clone, Copy, Debug)]
struct Parts {
    num: i64,
    den: i64,
}

/// The number that a word spells in lowest terms, where it fits.
pub fn read_number<N: Exact, L: Ledger>(word: &[u8], ledger: &mut L) -> Option<N>
    ensures number { MatchOption result
        ((q : Fraction) → Fits N.limit q → word.now ≡ number_text q → ⊥)
        (λ x. word.now ≡ number_text (N.value x)) }
    ensures counted { NeverFell L.ops L.wides ledger.old ledger.new }
{
    match read_parts(word) {
        None => None,
        Some(parts) => match N::from_parts(parts.num, parts.den, ledger) {
            Err(_) => None,
            Ok(number) => {
                if spells(number, word) {
                    Some(number)
                } else {
                    None
                }
            }
        },
    }
}

/// The parts of a word that spells a fraction; any parts, or none, of another word.
fn read_parts(word: &[u8]) -> Option<Parts>
    ensures parts { (q : Fraction) → nat_abs q.num < 2 ^ 62 → q.den < 2 ^ 62
        → word.now ≡ number_text q → result ≡ Some (record { num = q.num; den = pos q.den }) }
    ensures positive { IfSome result (λ p. pos 0 <ℤ p.den) }
{
    match split_byte(word, b'/') {
        None => match read_whole(word) {
            None => None,
            Some(num) => Some(Parts { num, den: 1 }),
        },
        Some(split) => read_quotient(split.front, split.back),
    }
}

/// The parts of two words.
fn read_quotient(front: &[u8], back: &[u8]) -> Option<Parts>
    ensures parts { (z : ℤ) (n : ℕ) → nat_abs z < 2 ^ 62 → 0 < n → n < 2 ^ 62
        → front.now ≡ signed_decimal z → back.now ≡ decimal n
        → result ≡ Some (record { num = z; den = pos n }) }
    ensures positive { IfSome result (λ p. pos 0 <ℤ p.den) }
{
    match read_whole(front) {
        None => None,
        Some(num) => match read_whole(back) {
            None => None,
            Some(den) => {
                if den > 0 {
                    Some(Parts { num, den })
                } else {
                    None
                }
            }
        },
    }
}

/// The whole number that a word spells; any number, or none, of another word.
fn read_whole(word: &[u8]) -> Option<i64>
    ensures whole { (z : ℤ) → nat_abs z < 2 ^ 62 → word.now ≡ signed_decimal z → result ≡ Some z }
{
    match str::from_utf8(word) {
        Err(_) => None,
        Ok(text) => match text.parse::<i64>() {
            Err(_) => None,
            Ok(whole) => Some(whole),
        },
    }
}

/// Whether a word spells the number in lowest terms.
fn spells<N: Exact>(number: N, word: &[u8]) -> bool
    ensures spells { IsTrue result ↔ (word.now ≡ number_text (N.value number)) }
{
    match strip_whole(word, number.num()) {
        None => false,
        Some(rest) => spells_denominator(rest, number.den()),
    }
}

/// What stands behind a whole number at the front of a text.
fn strip_whole(text: &[u8], whole: i64) -> Option<&[u8]>
    ensures found { MatchOption result
        ((rest : List ℕ) → text.now ≡ signed_decimal whole ++ rest → ⊥)
        (λ rest. text.now ≡ signed_decimal whole ++ rest.now) }
{
    let mut buffer = Buffer::new();
    strip(text, buffer.format(whole).as_bytes())
}

/// Whether a text is what stands behind a numerator.
fn spells_denominator(text: &[u8], den: i64) -> bool
    requires positive { pos 0 <ℤ den }
    ensures spells { IsTrue result ↔ (text.now
        ≡ (if nat_abs den == 1 then [] else (codes "/" ++ decimal (nat_abs den)))) }
{
    if den == 1 {
        text.is_empty()
    } else {
        is_slash_and(text, den as u64)
    }
}

/// Whether a text is a slash and the number.
fn is_slash_and(text: &[u8], den: u64) -> bool
    ensures spells { IsTrue result ↔ (text.now ≡ codes "/" ++ decimal den) }
{
    let mut buffer = Buffer::new();
    match strip(text, b"/") {
        None => false,
        Some(rest) => rest == buffer.format(den).as_bytes(),
    }
}

/// What stands behind a piece at the front of a text.
fn strip<'t>(text: &'t [u8], piece: &[u8]) -> Option<&'t [u8]>
    ensures found { MatchOption result ((rest : List ℕ) → text.now ≡ piece.now ++ rest → ⊥)
        (λ rest. text.now ≡ piece.now ++ rest.now) }
{
    text.strip_prefix(piece)
}
