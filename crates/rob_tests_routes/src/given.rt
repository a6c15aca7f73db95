//! What the calls are given: the model of a text, and the numbers of a line.

ghost use Rattle.std.specs.Prelude.{IfOk};
ghost use Rattle.rob_meaning.specs.Named.{IsNamed};
ghost use Rattle.rob_model.specs.Valid.{IsValid};
ghost use Rattle.rob_model.specs.View.{robust};

use rob_case::numbers::{small, whole};
use rob_case::{Case, Trouble};
use rob_model::Model;
use rob_number::{Exact, Tally};
use rob_parse::read_model;
use std::alloc::Global;

/// The model of the case.
pub(crate) fn model<N: Exact>(alloc: Global, case: &Case) -> Result<Model<N>, Trouble>
    ensures valid { IfOk result (λ m. IsValid N.value m) }
    ensures named { IfOk result (λ m. IsNamed (robust N.value m)) }
{
    let text = case.model();
    if text.len() > 1 << 30 {
        return Err(Trouble::Line);
    }
    match read_model(alloc, text, &mut Tally::new()) {
        Ok(model) => Ok(model),
        Err(_) => Err(Trouble::Line),
    }
}

/// The numbers of columns in a line.
pub(crate) fn columns(alloc: Global, line: &str) -> Result<Vec<u32>, Trouble> {
    let mut columns = Vec::new(alloc);
    for word in line.split_whitespace() {
        columns.push(small(word)?)?;
    }
    Ok(columns)
}

/// The fractions of a line.
pub(crate) fn fractions<N: Exact>(alloc: Global, line: &str) -> Result<Vec<N>, Trouble> {
    let mut numbers = Vec::new(alloc);
    for word in line.split_whitespace() {
        numbers.push(fraction(word)?)?;
    }
    Ok(numbers)
}

/// The fraction of a word: a whole number, or one over another one.
pub(crate) fn fraction<N: Exact>(word: &str) -> Result<N, Trouble> {
    let (num, den) = word.split_once('/').unwrap_or((word, "1"));
    quotient(whole(num)?, whole(den)?)
}

fn quotient<N: Exact>(num: i64, den: i64) -> Result<N, Trouble> {
    if den <= 0 {
        return Err(Trouble::Line);
    }
    match N::from_parts(num, den, &mut Tally::new()) {
        Ok(number) => Ok(number),
        Err(_) => Err(Trouble::Line),
    }
}
