//! The number that a field is.

ghost use Rattle.std.specs.Prelude.{◌≡◌, ◌≤◌, ◌<◌, ◌+◌, ◌*◌, ◌-◌, ◌^◌, take, drop, length, nat_le, Some, None, option_map, MatchOption, if◌then◌else◌, ◌&&◌};
ghost use Rattle.rob_number.specs.Counts.{NeverFell};
ghost use Rattle.rob_replay.specs.Fields.{is_blank, is_digit, behind_blanks as behind, before_blanks as before, whole_in, numerator_in, denominator_in, divisor_in, unsigned_in, signed_in, number_in};

use rob_number::exact::fraction;
use rob_number::{Exact, Ledger};

/// Whether a byte is a space or a tab.
fn is_blank(b: u8) -> bool
    ensures blank { result ≡ is_blank b }
{
    b == b' ' || b == b'\t'
}

/// A field without the blanks in front.
fn behind_blanks(field: &[u8]) -> &[u8]
    ensures bytes { result.now ≡ behind field.now }
{
    for (i, b) in field.iter().enumerate() {
        if !is_blank(*b) {
            return &field[i..];
        }
    }
    &field[field.len()..]
}

/// A field without the blanks at its end.
fn before_blanks(field: &[u8]) -> &[u8]
    ensures bytes { result.now ≡ before field.now }
{
    let mut end = field.len();
    while end > 0 {
        if !is_blank(field[end - 1]) {
            return &field[..end];
        }
        end -= 1;
    }
    &field[..end]
}

/// A value with one more digit, unless that is none, or the value is over the limit.
fn with_digit(value: u64, b: u8, limit: u64) -> Option<u64>
    requires small { value ≤ limit }
    requires bits { limit < 2 ^ 62 }
    ensures value { result
        ≡ (if is_digit b && nat_le (value * 10 + (b - 48)) limit then Some (value * 10 + (b - 48))
        else None) }
{
    if b < b'0' || b > b'9' {
        return None;
    }
    let next = value as u128 * 10 + (b - b'0') as u128;
    if next > limit as u128 {
        return None;
    }
    Some(next as u64)
}

/// The value of a run of digits, if it is at most the limit.
fn read_whole<N: Exact>(digits: &[u8]) -> Option<u64>
    ensures whole { result ≡ whole_in N.limit digits.now }
{
    if digits.is_empty() {
        return None;
    }
    let limit = N::LIMIT as u64;
    let mut value = 0u64;
    for b in digits {
        match with_digit(value, *b, limit) {
            None => return None,
            Some(next) => value = next,
        }
    }
    Some(value)
}

/// The place of the first `/`.
fn slash_in(word: &[u8]) -> Option<usize>
    ensures place { MatchOption result
        ((numerator_in word.now ≡ word.now) × (denominator_in word.now ≡ None))
        (λ i. (i < length word.now) × (numerator_in word.now ≡ take i word.now)
        × (denominator_in word.now ≡ Some (drop (i + 1) word.now))) }
{
    for (i, b) in word.iter().enumerate() {
        if *b == b'/' {
            return Some(i);
        }
    }
    None
}

/// The denominator that digits are: it is not 0.
fn read_divisor<N: Exact>(digits: &[u8]) -> Option<u64>
    ensures divisor { result ≡ divisor_in N.limit digits.now }
{
    match read_whole::<N>(digits) {
        None => None,
        Some(divisor) => { if divisor == 0 { None } else { Some(divisor) } }
    }
}

/// The number of digits, and of further digits behind a `/`.
fn read_unsigned<N: Exact, L: Ledger>(word: &[u8], ledger: &mut L) -> Option<N>
    ensures number { option_map N.value result ≡ unsigned_in N.limit word.now }
    ensures counted { NeverFell L.ops L.wides ledger.old ledger.new }
{
    match slash_in(word) {
        None => match read_whole::<N>(word) {
            None => None,
            Some(numerator) => Some(fraction(numerator, 1, ledger)),
        },
        Some(i) => match read_whole::<N>(&word[..i]) {
            None => None,
            Some(numerator) => match read_divisor::<N>(&word[i + 1..]) {
                None => None,
                Some(divisor) => Some(fraction(numerator, divisor, ledger)),
            },
        },
    }
}

/// The same with an optional `-` in front.
fn read_signed<N: Exact, L: Ledger>(word: &[u8], ledger: &mut L) -> Option<N>
    ensures number { option_map N.value result ≡ signed_in N.limit word.now }
    ensures counted { NeverFell L.ops L.wides ledger.old ledger.new }
{
    if word.is_empty() {
        return None;
    }
    if word[0] == b'-' {
        match read_unsigned::<N, L>(&word[1..], ledger) {
            None => None,
            Some(number) => Some(number.neg()),
        }
    } else {
        read_unsigned(word, ledger)
    }
}

/// The number that a field is.
pub fn read_number<N: Exact, L: Ledger>(field: &[u8], ledger: &mut L) -> Option<N>
    ensures number { option_map N.value result ≡ number_in N.limit field.now }
    ensures counted { NeverFell L.ops L.wides ledger.old ledger.new }
{
    read_signed(before_blanks(behind_blanks(field)), ledger)
}
