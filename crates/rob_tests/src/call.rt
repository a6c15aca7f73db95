//! The calls of the cases.

use crate::{deep, narrow, number, outside, rows, simplex, solver, words};
use rob_case::{Calls, Case, Trouble};
use rob_number::Frac;

/// A width of 8 bits, and one of 62.
type Eight = Frac<8>;

type Most = Frac<62>;

/// The libraries of numbers, programs, words and the outside.
pub(crate) struct Libraries;

impl Calls<HostRuntime> for Libraries {
    fn answer(rt: &HostRuntime, _case: &Case, word: &str, rest: &str) -> Result<String, Trouble> {
        of_numbers(rt, word, rest)
    }
}

/// Calls of exact numbers, lists and texts; each other one is of another library.
fn of_numbers(rt: &HostRuntime, word: &str, rest: &str) -> Result<String, Trouble> {
    let alloc = rt.alloc();
    match word {
        "number-8" => number::operation::<Eight>(alloc, rest),
        "number-62" => number::operation::<Most>(alloc, rest),
        "pair-8" => number::reduced::<Eight>(alloc, rest),
        "compare-8" => number::compared::<Eight>(alloc, rest),
        "limits" => number::limits(alloc),
        "divisor" => number::divisor(alloc, rest),
        "cut" => number::cut(alloc, rest),
        "push" => number::pushed(alloc, rest),
        "minuses" => number::minuses(alloc),
        _ => of_programs(rt, word, rest),
    }
}

/// Calls of rows and programs.
fn of_programs(rt: &HostRuntime, word: &str, rest: &str) -> Result<String, Trouble> {
    let alloc = rt.alloc();
    match word {
        "order" => rows::order(alloc, rest),
        "solve" | "resume" | "combined" => simplex::answer::<Most>(alloc, word, rest),
        "resume-8" => simplex::answer::<Eight>(alloc, "resume", rest),
        "base-8" => simplex::answer::<Eight>(alloc, "base", rest),
        "bound" => narrow::bound(alloc, rest),
        "deep-row" => deep::combined(alloc, rest),
        "deep-lowest" => deep::reduced(alloc, rest),
        "deep-order" => deep::order(alloc, rest),
        "deeper" => solver::solved::<Most>(alloc, rest),
        "deeper-8" => solver::solved::<Eight>(alloc, rest),
        _ => of_words(rt, word, rest),
    }
}

/// Calls on words, and of shelves and sinks.
fn of_words(rt: &HostRuntime, word: &str, rest: &str) -> Result<String, Trouble> {
    let alloc = rt.alloc();
    match word {
        "words" => words::command(alloc, rest),
        "no-word" => words::no_word(alloc),
        "refuses" => words::refused(alloc, rest),
        "widens" => words::widened(alloc, rest),
        "fetch" => outside::fetches(alloc, rest),
        "sure-fetch" => outside::sure_fetch(alloc, rest),
        "machine-fetch" => outside::machine_fetch(rt, rest),
        "put" => outside::puts(alloc, rest),
        "sure-put" => outside::sure_puts(alloc, rest),
        "print" => outside::prints(alloc, rest),
        "machine-put" => outside::machine_put(rt, rest),
        _ => Err(Trouble::Line),
    }
}
