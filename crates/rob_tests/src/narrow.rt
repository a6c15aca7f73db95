//! Bounds on the numbers of programs' rows.

use crate::program::program;
use rob_case::Trouble;
use rob_case::numbers::whole;
use rob_case::text::keyword;
use rob_narrow::{bound_of, greatest};
use rob_rows::Lp;
use std::alloc::Global;

/// The greatest number of a program, and the bound on those of its rows, if it is within the limit that stands first;
/// no bound is within a limit below 0. It alone has the program: what it calls is lent it.
pub(crate) fn bound(alloc: Global, line: &str) -> Result<String, Trouble> {
    let (limit, rest) = keyword(line);
    let limit = whole(limit)?.max(0).unsigned_abs();
    let lp = program(alloc, rest)?;
    of_program(alloc, &lp, limit)
}

/// The greatest number of a program, and the bound, with memory for a row's numbers.
fn of_program(alloc: Global, lp: &Lp, limit: u64) -> Result<String, Trouble> {
    if !lp.is_shaped() {
        return Err(Trouble::Line);
    }
    let mut numbers = vec![in alloc; 0i64; lp.c.items().len()]?;
    let most = greatest(lp, numbers.as_mut_slice());
    told(alloc, most, bound_of(lp.b.items().len(), most, limit))
}

/// A greatest number, and a bound or that there is none.
fn told(alloc: Global, most: u64, bound: Option<u64>) -> Result<String, Trouble> {
    match bound {
        Some(bound) => Ok(format!(in alloc; "{most} {bound}")?),
        None => Ok(format!(in alloc; "{most} none")?),
    }
}
