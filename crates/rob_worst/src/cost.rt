//! The costs of a search: the numbers of a form at a whole vector.

ghost use Rattle.std.specs.Prelude.{◌≡◌, ◌≤◌, ◌<◌, suc, nat_abs, length, MatchOption, MatchResult, ⊤};
ghost use Rattle.rob_meaning.specs.Places.{Each, tabulate};
ghost use Rattle.rob_dualize.specs.SetProgram.{in_pairs};
ghost use Rattle.rob_dualize.specs.Wholes.{AreSound};
ghost use Rattle.rob_worst.specs.Costs.{part_at, column_part, IsWidePart, StopsAtPart};

use crate::sums::{added, push_pair};
use rob_cert::Stop;
use rob_dualize::entries::form_number;
use rob_dualize::stop::wide_at;
use rob_elab::Forms;
use rob_model::{Spot, Where};
use rob_number::{Exact, List};
use std::alloc::Global;

/// The costs of all columns: for each set column the form's number at the whole vector, and behind it its negation.
pub fn costs<N: Exact>(
    alloc: Global,
    forms: &Forms,
    columns: u32,
    form: u32,
    whole: &[i64],
) -> Result<List<i64>, Stop>
    requires sound { AreSound forms.now }
    requires form_in { form < length forms.now.matrices }
    requires size { length whole.now ≡ suc (suc forms.now.columns) }
    requires fits { Each (λ a. nat_abs a ≤ N.limit) whole.now }
    ensures costs { MatchResult result
        (λ list. list ≡ in_pairs (tabulate columns (column_part forms.now form whole.now)))
        (StopsAtPart forms.now form N.limit whole.now) }
    ensures within { MatchResult result (λ list. Each (λ a. nat_abs a ≤ N.limit) list) (λ _. ⊤) }
{
    let mut list = List::new(alloc);
    for c in 0..columns {
        let number = match column::<N>(forms, form as usize, c as usize, whole) {
            Some(number) => number,
            None => return Err(wide_at(alloc, Spot::Sum(Where::Cost(form), c + 1))),
        };
        push_pair(&mut list, number)?;
    }
    Ok(list)
}

/// The form's number for set column c, which is 0 where that is no parameter; none where a prefix of its sum is over
/// the limit.
fn column<N: Exact>(forms: &Forms, i: usize, c: usize, whole: &[i64]) -> Option<i64>
    requires sound { AreSound forms.now }
    requires form_in { i < length forms.now.matrices }
    requires size { length whole.now ≡ suc (suc forms.now.columns) }
    requires fits { Each (λ a. nat_abs a ≤ N.limit) whole.now }
    ensures number { MatchOption result
        ((c < forms.now.params) × IsWidePart forms.now i N.limit (suc c) whole.now)
        (λ z. (z ≡ column_part forms.now i whole.now c) × (nat_abs z ≤ N.limit)) }
{
    if c < forms.params as usize {
        part::<N>(forms, i, c + 1, whole)
    } else {
        Some(0)
    }
}

/// The form's number for the constant, or, with k over 0, for parameter k - 1: the sum over the columns, in order; none
/// where a prefix of it is over the limit.
pub fn part<N: Exact>(forms: &Forms, i: usize, k: usize, whole: &[i64]) -> Option<i64>
    requires sound { AreSound forms.now }
    requires form_in { i < length forms.now.matrices }
    requires row_in { k ≤ forms.now.params }
    requires size { length whole.now ≡ suc (suc forms.now.columns) }
    requires fits { Each (λ a. nat_abs a ≤ N.limit) whole.now }
    ensures number { MatchOption result (IsWidePart forms.now i N.limit k whole.now)
        (λ z. (z ≡ part_at forms.now i k whole.now) × (nat_abs z ≤ N.limit)) }
{
    let mut sum = 0i64;
    for j in 0..forms.columns as usize + 2 {
        match added::<N>(sum, form_number(forms, i, k, j), whole[j]) {
            Some(next) => sum = next,
            None => return None,
        }
    }
    Some(sum)
}
