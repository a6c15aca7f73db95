//! The order of rows over their divisors.

use rob_case::Trouble;
use rob_case::numbers::wholes;
use rob_rows::lex_cmp;
use std::alloc::Global;
use std::cmp::Ordering;

/// How a row of two numbers over the third stands to the next two over the last.
pub(crate) fn order(alloc: Global, line: &str) -> Result<String, Trouble> {
    let numbers = wholes(alloc, line)?;
    match numbers.as_slice() {
        [a, b, p, c, d, q] if *p > 0 && *q > 0 => {
            let order = lex_cmp(&[*a, *b], *p, &[*c, *d], *q);
            Ok(format!(in alloc; "{order:?}")?)
        }
        _ => Err(Trouble::Line),
    }
}
