//! Exact numbers, lists and texts.

use crate::program::list;
use rob_case::Trouble;
use rob_case::numbers::{shown as shown_number, small, whole, wholes};
use rob_case::text::{keyword, said, shown};
use rob_number::{Exact, Frac, List, Memory, Tally, Text, Wide, gcd128};
use std::alloc::Global;

/// The pair of a word.
fn pair(word: &str) -> Result<(i64, i64), Trouble> {
    let (num, den) = match word.split_once('/') {
        Some(parts) => parts,
        None => (word, "1"),
    };
    Ok((whole(num)?, whole(den)?))
}

/// The number of a pair, or that it is wide.
fn number<N: Exact>(word: &str, ledger: &mut Tally) -> Result<Result<N, Wide>, Trouble> {
    let (num, den) = pair(word)?;
    if den > 0 {
        Ok(N::from_parts(num, den, ledger))
    } else {
        Err(Trouble::Line)
    }
}

/// The number of a pair that fits.
fn fitting<N: Exact>(word: &str) -> Result<N, Trouble> {
    match number(word, &mut Tally::new())? {
        Ok(x) => Ok(x),
        Err(Wide) => Err(Trouble::Line),
    }
}

fn result<N: Exact>(
    operation: &str,
    a: N,
    b: N,
    ledger: &mut Tally,
) -> Result<Result<N, Wide>, Trouble> {
    if operation == "add" {
        Ok(a.add(b, ledger))
    } else if operation == "sub" {
        Ok(a.sub(b, ledger))
    } else if operation == "mul" {
        Ok(a.mul(b, ledger))
    } else if operation == "div" && b.sign() != 0 {
        Ok(a.div(b, ledger))
    } else {
        Err(Trouble::Line)
    }
}

/// What an operation on two numbers gives, and what its ledger counted.
pub(crate) fn operation<N: Exact>(alloc: Global, line: &str) -> Result<String, Trouble> {
    let (name, numbers) = keyword(line);
    let (a, b) = keyword(numbers);
    let mut ledger = Tally::new();
    let got = result(name, fitting::<N>(a)?, fitting(b)?, &mut ledger)?;
    let told = answer(alloc, got)?;
    let ops = ledger.ops();
    let wides = ledger.wides();
    Ok(format!(in alloc; "{told} counted {ops} {wides}")?)
}

/// The number of a pair, or that it is wide.
fn answer<N: Exact>(alloc: Global, number: Result<N, Wide>) -> Result<String, Trouble> {
    match number {
        Ok(x) => shown_number(alloc, x),
        Err(Wide) => said(alloc, "wide"),
    }
}

/// A pair as a number, and its sign.
pub(crate) fn reduced<N: Exact>(alloc: Global, word: &str) -> Result<String, Trouble> {
    match number::<N>(word, &mut Tally::new())? {
        Ok(x) => signed(alloc, x),
        Err(Wide) => said(alloc, "wide"),
    }
}

fn signed<N: Exact>(alloc: Global, x: N) -> Result<String, Trouble> {
    let num = x.num();
    let den = x.den();
    let sign = x.sign();
    Ok(format!(in alloc; "{num}/{den} of sign {sign}")?)
}

/// How a number stands to another, and how its negation does.
pub(crate) fn compared<N: Exact>(alloc: Global, line: &str) -> Result<String, Trouble> {
    let (a, b) = keyword(line);
    let a = fitting::<N>(a)?;
    let b = fitting::<N>(b)?;
    let order = a.cmp(&b);
    let negated = a.neg().cmp(&b);
    let same = a == b;
    Ok(format!(in alloc; "{order:?}, negated {negated:?}, the same {same}")?)
}

/// The limits at widths of 8, 31 and 62 bits; at 7 and 63, which are none, they are those of 8.
pub(crate) fn limits(alloc: Global) -> Result<String, Trouble> {
    let limits = [
        Frac::<8>::LIMIT,
        Frac::<31>::LIMIT,
        Frac::<62>::LIMIT,
        Frac::<7>::LIMIT,
        Frac::<63>::LIMIT,
    ];
    Ok(format!(in alloc; "{limits:?}")?)
}

/// The greatest common divisor of two numbers, each times so many powers of 2.
pub(crate) fn divisor(alloc: Global, line: &str) -> Result<String, Trouble> {
    let (a, b) = keyword(line);
    match (a.parse::<u128>(), b.parse::<u128>()) {
        (Ok(a), Ok(b)) => {
            let divisor = gcd128(a, b);
            Ok(format!(in alloc; "{divisor}")?)
        }
        _ => Err(Trouble::Line),
    }
}

/// Pieces appended to a text, with `|` between them, and the text cut to a length.
pub(crate) fn cut(alloc: Global, line: &str) -> Result<String, Trouble> {
    let (length, pieces) = keyword(line);
    let length = small(length)? as usize;
    let mut text = Text::new(alloc);
    cut_text(alloc, &mut text, pieces, length)
}

/// Pieces appended to the text, and the text cut to a length.
fn cut_text(
    alloc: Global,
    text: &mut Text,
    pieces: &str,
    length: usize,
) -> Result<String, Trouble> {
    for piece in pieces.split('|') {
        text.push(piece.as_bytes())?;
    }
    if text.bytes().len() < length {
        return Err(Trouble::Line);
    }
    text.cut(length);
    shown(alloc, text.bytes())
}

/// Numbers pushed to a list.
pub(crate) fn pushed(alloc: Global, line: &str) -> Result<String, Trouble> {
    let numbers = wholes(alloc, line)?;
    let list = list(alloc, numbers.as_slice())?;
    let items = list.items();
    Ok(format!(in alloc; "{items:?}")?)
}

/// A sum of sums: a type that leads back to itself through `List`.
#[cycle(sum)]
#[derive(Drop)]
enum Sum<N> {
    Number(N),
    Terms(List<Term<N>>),
}

#[cycle(sum)]
#[derive(Drop)]
struct Term<N> {
    minus: bool,
    inner: Sum<N>,
}

#[cycle(count)]
fn has_minus<N>(sum: &Sum<N>) -> bool {
    match sum {
        Sum::Number(_) => false,
        Sum::Terms(terms) => any_minus(terms.items()),
    }
}

#[cycle(count)]
fn any_minus<N>(terms: &[Term<N>]) -> bool {
    for term in terms {
        if term.minus || has_minus(&term.inner) {
            return true;
        }
    }
    false
}

/// A sum of one term.
fn sum_of(alloc: Global, minus: bool, inner: Sum<i64>) -> Result<Sum<i64>, Memory> {
    let mut terms = List::new(alloc);
    terms.push(Term { minus, inner })?;
    Ok(Sum::Terms(terms))
}

/// Whether 7 has a minus, and whether 0 + (0 - 7) has one.
pub(crate) fn minuses(alloc: Global) -> Result<String, Trouble> {
    let inner = sum_of(alloc, true, Sum::Number(7))?;
    let outer = sum_of(alloc, false, inner)?;
    let seven = has_minus(&Sum::Number(7));
    let whole = has_minus(&outer);
    Ok(format!(in alloc; "{seven}, {whole}")?)
}
