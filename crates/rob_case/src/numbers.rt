//! Numbers of the cases: read from words, made exact, and shown.

ghost use Rattle.std.specs.Prelude.{◌≡◌, ◌∷◌, [], IfOk, filter, length, map, string_bytes};
ghost use Rattle.rob_case.specs.Answers.{Answers, Appends};
ghost use Rattle.rob_case.specs.Numbers.{exact_of, is_filled, number_text, of_all, small_of, spaced, whole_of, wholes_of};

use crate::text::keyword;
use crate::trouble::Trouble;
use rob_number::{Exact, List, Tally};
use std::alloc::Global;

/// The whole numbers of a line, with spaces between them.
pub fn wholes(alloc: Global, line: &str) -> Result<Vec<i64>, Trouble>
    ensures wholes { Answers (wholes_of line.now) (λ numbers. numbers.items) result }
{
    let mut numbers = Vec::new(alloc);
    let mut left = line;
    while !left.is_empty() {
        let (word, rest) = keyword(left);
        put_whole(&mut numbers, word)?;
        left = rest;
    }
    Ok(numbers)
}

/// Appends the whole number of a word, and nothing where there is no word.
fn put_whole(numbers: &mut Vec<i64>, word: &str) -> Result<(), Trouble>
    ensures appended { Appends numbers.old.items
        (of_all whole_of (filter is_filled (word.now ∷ []))) numbers.new.items result }
{
    if !word.is_empty() {
        numbers.push(whole(word)?)?;
    }
    Ok(())
}

/// The whole number of a word.
pub fn whole(word: &str) -> Result<i64, Trouble>
    ensures whole { Answers (whole_of word.now) (λ number. number) result }
{
    match word.parse::<i64>() {
        Ok(number) => Ok(number),
        Err(_) => Err(Trouble::Line),
    }
}

/// The small number of a word.
pub fn small(word: &str) -> Result<u32, Trouble>
    ensures small { Answers (small_of word.now) (λ number. number) result }
{
    match word.parse::<u32>() {
        Ok(number) => Ok(number),
        Err(_) => Err(Trouble::Line),
    }
}

/// A whole number as a number of a width. `Line` says that it doesn't fit.
pub fn exact<N: Exact>(num: i64) -> Result<N, Trouble>
    ensures exact { Answers (exact_of N.limit num) N.value result }
{
    match N::from_parts(num, 1, &mut Tally::new()) {
        Ok(number) => Ok(number),
        Err(_) => Err(Trouble::Line),
    }
}

/// Whole numbers as numbers of a width. `Line` says that one doesn't fit.
pub fn exacts<N: Exact>(alloc: Global, nums: &[i64]) -> Result<List<N>, Trouble>
    ensures count { IfOk result (λ list. length list ≡ length nums.now) }
    ensures exact { Answers (of_all (exact_of N.limit) nums.now) (λ list. map N.value list) result }
{
    let mut list = List::new(alloc);
    for num in nums {
        list.push(exact(*num)?)?;
    }
    Ok(list)
}

/// A number: its numerator, and its denominator where that isn't 1.
pub fn shown<N: Exact>(alloc: Global, number: N) -> Result<String, Trouble>
    ensures shown { Answers (Some (number_text (N.value number)))
        (λ text. string_bytes text) result }
{
    let num = number.num();
    let den = number.den();
    if den == 1 {
        Ok(format!(in alloc; "{num}")?)
    } else {
        Ok(format!(in alloc; "{num}/{den}")?)
    }
}

/// Appends a number behind a space. After an error the text is open.
pub fn put<N: Exact>(alloc: Global, text: &mut String, number: N) -> Result<(), Trouble>
    ensures appended { Appends (string_bytes text.old) (Some (32 ∷ number_text (N.value number)))
        (string_bytes text.new) result }
{
    let word = shown(alloc, number)?;
    text.push(' ')?;
    text.push_str(word.as_str())?;
    Ok(())
}

/// Appends numbers, each behind a space. After an error the text is open.
pub fn put_all<N: Exact>(alloc: Global, text: &mut String, numbers: &[N]) -> Result<(), Trouble>
    ensures appended { Appends (string_bytes text.old) (Some (spaced N.value numbers.now))
        (string_bytes text.new) result }
{
    for number in numbers {
        put(alloc, text, *number)?;
    }
    Ok(())
}
