//! The covers of forms: multipliers of set rows that keep a form at most 0 at a vector in every scenario.

ghost use Rattle.std.specs.Prelude.{◌≡◌, ◌+◌, ◌<◌, ◌≤◌, ◌^◌, ℕ, nat_abs, length, map};
ghost use Rattle.std.specs.Result.{result_ok};
ghost use Rattle.rob_algebra.specs.Fraction.{of_int, ◌*ℚ◌};
ghost use Rattle.rob_algebra.specs.Width.{kept};
ghost use Rattle.rob_cert.specs.View.{cover_of};
ghost use Rattle.rob_check.specs.Covers.{column_test, column_tests, constant_test, cover_place, cover_tests, form_tests, form_within, rows_within, sign_place, sign_test};
ghost use Rattle.rob_check.specs.LiftedSet.{lifted_of, numbers_in};
ghost use Rattle.rob_check.specs.Sums.{dot_within, with_part};
ghost use Rattle.rob_check.specs.Verdicts.{Counted, RoseIfWide, verdict};
ghost use Rattle.rob_check.specs.View.{AreOrdered, HasColumns, NameRows, covering_of, row_entry, run};
ghost use Rattle.rob_elab.specs.Forms.{FormsFit, MatrixFits};
ghost use Rattle.rob_meaning.specs.Clearing.{fractions};
ghost use Rattle.rob_meaning.specs.Places.{Each};
ghost use Rattle.rob_number.specs.Answer.{answer};
ghost use Rattle.rob_number.specs.Counts.{CountsTold};
ghost use Rattle.rob_sets.specs.SetForm.{RowFits, SetFits};

use crate::covering::{Covered, Covering};
use crate::sums::{add_entry, add_product, is_nonnegative, is_same};
use crate::verdict::{Verdict, judge};
use rob_cert::Cover;
use rob_elab::Forms;
use rob_model::Place;
use rob_model::numbers::{at_most, zero};
use rob_number::{Exact, Ledger, List, Wide};
use rob_sets::{SetForm, SetRow};

/// The place of a multiplier's sign.
fn sign_at(covered: Covered, form: u32, set_row: u32) -> Place
    ensures place { result ≡ sign_place covered form set_row }
{
    match covered {
        Covered::Plan => Place::CoverSign(form, set_row),
        Covered::Step => Place::HoldSign(form, set_row),
    }
}

/// The place of a sum: 0 is the constant, other numbers are set columns from 1.
fn sum_at(covered: Covered, form: u32, column: u32) -> Place
    ensures place { result ≡ cover_place covered form column }
{
    match covered {
        Covered::Plan => Place::Cover(form, column),
        Covered::Step => Place::Hold(form, column),
    }
}

/// The sum so far with a multiplier times a set row's number: in a set column, or, with none, on the right side.
fn add_row<N: Exact, L: Ledger>(
    so_far: N,
    amount: N,
    row: &SetRow,
    column: Option<usize>,
    ledger: &mut L,
) -> Result<N, Wide>
    requires fits { RowFits N.limit row.now }
    ensures exact { answer N.value result
        ≡ with_part N.limit (N.value so_far)
        (kept N.limit (N.value amount *ℚ row_entry row.now column)) }
    ensures counted { CountsTold L.ops L.wides ledger.old ledger.new result }
{
    match column {
        Some(column) => add_entry(so_far, amount, row.g.items(), column, ledger),
        None => add_product(so_far, amount, row.h, ledger),
    }
}

/// The sum of multipliers times the numbers of their set rows: in a set column, or, with none, on the right side.
fn rows_sum<N: Exact, L: Ledger>(
    set: &SetForm,
    mine: &[Cover<N>],
    column: Option<usize>,
    ledger: &mut L,
) -> Result<N, Wide>
    requires fits { SetFits N.limit set.now }
    requires rows { NameRows (length set.now.rows) (map (cover_of N.value) mine.now) }
    ensures exact { answer N.value result
        ≡ rows_within N.limit (map (cover_of N.value) mine.now)
        (numbers_in (lifted_of set.now) column) }
    ensures counted { CountsTold L.ops L.wides ledger.old ledger.new result }
{
    let mut sum: N = zero(ledger);
    for cover in mine {
        let row = &set.rows.items()[cover.set_row as usize];
        sum = add_row(sum, cover.amount, row, column, ledger)?;
    }
    Ok(sum)
}

/// A row of a form at a vector.
fn row_number<N: Exact, L: Ledger>(
    row: &[i64],
    covering: &Covering<'_, N>,
    ledger: &mut L,
) -> Result<N, Wide>
    requires fits { Each (λ a. nat_abs a ≤ N.limit) row.now }
    requires entries { length row.now ≡ length covering.now.columns.now + 2 }
    ensures exact { answer N.value result
        ≡ dot_within N.limit (covering_of N.value covering.now).vector (map of_int row.now) }
    ensures counted { CountsTold L.ops L.wides ledger.old ledger.new result }
{
    let nothing: N = zero(ledger);
    let mut sum = add_entry(nothing, covering.first, row, 0, ledger)?;
    let columns = covering.columns;
    for (j, number) in columns.iter().enumerate() {
        sum = add_entry(sum, *number, row, j + 1, ledger)?;
    }
    add_entry(sum, covering.bound, row, columns.len() + 1, ledger)
}

/// The scale times the number of a form at a vector: row 0 is the constant, row `k + 1` is parameter `k`. A row that
/// the form hasn't, of a column `t`, is 0.
fn form_number<N: Exact, L: Ledger>(
    form: &[List<i64>],
    row: usize,
    covering: &Covering<'_, N>,
    ledger: &mut L,
) -> Result<N, Wide>
    requires fits { MatrixFits N.limit form.now }
    requires columns { HasColumns (length covering.now.columns.now) form.now }
    ensures exact { answer N.value result
        ≡ form_within N.limit (covering_of N.value covering.now) (fractions form.now) row }
    ensures counted { CountsTold L.ops L.wides ledger.old ledger.new result }
{
    if row < form.len() {
        let number = row_number(form[row].items(), covering, ledger)?;
        covering.scale.mul(number, ledger)
    } else {
        let nothing: N = zero(ledger);
        covering.scale.mul(nothing, ledger)
    }
}

/// Whether the multipliers times the set rows sum to the form in a set column.
fn column_holds<N: Exact, L: Ledger>(
    form: &[List<i64>],
    set: &SetForm,
    covering: &Covering<'_, N>,
    mine: &[Cover<N>],
    column: usize,
    ledger: &mut L,
) -> Result<bool, Wide>
    requires fits { MatrixFits N.limit form.now }
    requires columns { HasColumns (length covering.now.columns.now) form.now }
    requires set_fits { SetFits N.limit set.now }
    requires rows { NameRows (length set.now.rows) (map (cover_of N.value) mine.now) }
    requires small { column < 2 ^ 32 }
    ensures exact { (i : ℕ) → result_ok result
        ≡ (column_test N.limit (lifted_of set.now) (covering_of N.value covering.now) i
        (fractions form.now) (map (cover_of N.value) mine.now) column).holds }
    ensures counted { CountsTold L.ops L.wides ledger.old ledger.new result }
{
    let rows = rows_sum(set, mine, Some(column), ledger)?;
    let number = form_number(form, column + 1, covering, ledger)?;
    Ok(is_same(rows, number))
}

/// Whether the multipliers times the right sides, with the form's constant part, sum to at most 0.
fn constant_holds<N: Exact, L: Ledger>(
    form: &[List<i64>],
    set: &SetForm,
    covering: &Covering<'_, N>,
    mine: &[Cover<N>],
    ledger: &mut L,
) -> Result<bool, Wide>
    requires fits { MatrixFits N.limit form.now }
    requires columns { HasColumns (length covering.now.columns.now) form.now }
    requires set_fits { SetFits N.limit set.now }
    requires rows { NameRows (length set.now.rows) (map (cover_of N.value) mine.now) }
    ensures exact { (i : ℕ) → result_ok result
        ≡ (constant_test N.limit (lifted_of set.now) (covering_of N.value covering.now) i
        (fractions form.now) (map (cover_of N.value) mine.now)).holds }
    ensures counted { CountsTold L.ops L.wides ledger.old ledger.new result }
{
    let rows = rows_sum(set, mine, None, ledger)?;
    let number = form_number(form, 0, covering, ledger)?;
    let total = rows.add(number, ledger)?;
    let nothing: N = zero(ledger);
    Ok(at_most(total, nothing))
}

/// The verdict on the signs of a form's multipliers.
fn check_signs<N: Exact>(index: u32, covering: &Covering<'_, N>, mine: &[Cover<N>]) -> Verdict
    ensures exact { result
        ≡ verdict (map (sign_test (covering_of N.value covering.now) index)
        (map (cover_of N.value) mine.now)) }
    ensures rose { (count : ℕ) → RoseIfWide count count result }
{
    for cover in mine {
        if !is_nonnegative(cover.amount) {
            return Verdict::Rejected(sign_at(covering.covered, index, cover.set_row));
        }
    }
    Verdict::Accepted
}

/// The verdict on a form's set columns and, behind them, its constant.
fn check_columns<N: Exact, L: Ledger>(
    index: u32,
    form: &[List<i64>],
    set: &SetForm,
    covering: &Covering<'_, N>,
    mine: &[Cover<N>],
    ledger: &mut L,
) -> Verdict
    requires fits { MatrixFits N.limit form.now }
    requires columns { HasColumns (length covering.now.columns.now) form.now }
    requires set_fits { SetFits N.limit set.now }
    requires rows { NameRows (length set.now.rows) (map (cover_of N.value) mine.now) }
    requires few { set.now.columns ≤ 1000 }
    ensures exact { result ≡ verdict
        (column_tests N.limit (lifted_of set.now) (covering_of N.value covering.now) index
        (fractions form.now) (map (cover_of N.value) mine.now)) }
    ensures counted { Counted L.ops L.wides ledger.old ledger.new result }
{
    for column in 0..set.columns {
        let test = column_holds(form, set, covering, mine, column as usize, ledger);
        match judge(sum_at(covering.covered, index, column + 1), test) {
            Verdict::Accepted => {}
            flaw => return flaw,
        }
    }
    let test = constant_holds(form, set, covering, mine, ledger);
    judge(sum_at(covering.covered, index, 0), test)
}

/// The verdict on a form's cover: the signs of its multipliers, then its sums.
fn check_form<N: Exact, L: Ledger>(
    index: u32,
    form: &[List<i64>],
    set: &SetForm,
    covering: &Covering<'_, N>,
    mine: &[Cover<N>],
    ledger: &mut L,
) -> Verdict
    requires fits { MatrixFits N.limit form.now }
    requires columns { HasColumns (length covering.now.columns.now) form.now }
    requires set_fits { SetFits N.limit set.now }
    requires rows { NameRows (length set.now.rows) (map (cover_of N.value) mine.now) }
    requires few { set.now.columns ≤ 1000 }
    ensures exact { result ≡ verdict
        (form_tests N.limit (lifted_of set.now) (covering_of N.value covering.now) index
        (fractions form.now) (map (cover_of N.value) mine.now)) }
    ensures counted { Counted L.ops L.wides ledger.old ledger.new result }
{
    match check_signs(index, covering, mine) {
        Verdict::Accepted => check_columns(index, form, set, covering, mine, ledger),
        flaw => flaw,
    }
}

/// How many multipliers of a form stand in front.
fn run_of<N: Exact>(covers: &[Cover<N>], form: u32) -> usize
    ensures count { result ≡ run form (map (cover_of N.value) covers.now) }
    ensures within { result ≤ length covers.now }
{
    let mut count = 0usize;
    for cover in covers {
        if cover.form != form {
            return count;
        }
        count += 1;
    }
    count
}

/// The verdict on the covers of all forms. The multipliers stand in order of form, so they are walked once.
pub fn check_covers<N: Exact, L: Ledger>(
    forms: &Forms,
    set: &SetForm,
    covering: &Covering<'_, N>,
    ledger: &mut L,
) -> Verdict
    requires fits { FormsFit N.limit forms.now }
    requires columns { Each (HasColumns (length covering.now.columns.now)) forms.now.matrices }
    requires set_fits { SetFits N.limit set.now }
    requires covers { AreOrdered (length set.now.rows)
        (map (cover_of N.value) covering.now.covers.now) }
    requires few { set.now.columns ≤ 1000 }
    requires few_forms { length forms.now.matrices < 2 ^ 32 }
    ensures exact { result ≡ verdict
        (cover_tests N.limit (lifted_of set.now) (covering_of N.value covering.now) 0
        forms.now.matrices) }
    ensures counted { Counted L.ops L.wides ledger.old ledger.new result }
{
    let mut rest = covering.covers;
    for (index, form) in forms.matrices.items().iter().enumerate() {
        let (mine, behind) = rest.split_at(run_of(rest, index as u32));
        match check_form(index as u32, form.items(), set, covering, mine, ledger) {
            Verdict::Accepted => {}
            flaw => return flaw,
        }
        rest = behind;
    }
    Verdict::Accepted
}
