//! The sums of the items, column by column.

ghost use Rattle.std.specs.Prelude.{◌≡◌, ◌≤◌, map, option_map};
ghost use Rattle.std.specs.Result.{result_ok};
ghost use Rattle.rob_cert.specs.View.{item_of};
ghost use Rattle.rob_check.specs.Conditions.{is_asked, sum_test, sum_tests};
ghost use Rattle.rob_check.specs.Verdicts.{Counted, verdict};
ghost use Rattle.rob_check.specs.View.{TakesForm};
ghost use Rattle.rob_elab.specs.Forms.{FormsFit};
ghost use Rattle.rob_meaning.specs.Places.{at, Each};
ghost use Rattle.rob_meaning.specs.Proves.{target};
ghost use Rattle.rob_model.specs.Limits.{most_columns};
ghost use Rattle.rob_model.specs.View.{sense_of};
ghost use Rattle.rob_number.specs.Counts.{CountsTold, NeverFell};

use crate::items::column_sum;
use crate::sums::{is_positive, is_same};
use crate::verdict::{Verdict, judge};
use rob_cert::Item;
use rob_elab::Forms;
use rob_model::numbers::{one, zero};
use rob_model::{Place, Sense};
use rob_number::{Exact, Ledger, Wide};

/// What the items of an optimal certificate sum to in a column: the value in the constant and -1 in `tau`, or for
/// maximise the value's negative and 1; 0 in each decision column.
fn target_at<N: Exact, L: Ledger>(
    sense: Sense,
    columns: u32,
    value: N,
    column: u32,
    ledger: &mut L,
) -> N
    requires few { columns ≤ most_columns }
    ensures number { N.value result ≡ at (target (sense_of sense) columns (N.value value)) column }
    ensures counted { NeverFell L.ops L.wides ledger.old ledger.new }
{
    if column == 0 {
        match sense {
            Sense::Minimise => value,
            Sense::Maximise => value.neg(),
        }
    } else if column == columns + 1 {
        let unit: N = one(ledger);
        match sense {
            Sense::Minimise => unit.neg(),
            Sense::Maximise => unit,
        }
    } else {
        zero(ledger)
    }
}

/// Whether a sum in a column is what it must be: the target of the value; or, with no value, 0, and in the constant
/// above 0.
fn is_asked_sum<N: Exact, L: Ledger>(
    forms: &Forms,
    value: Option<N>,
    column: u32,
    sum: N,
    ledger: &mut L,
) -> bool
    requires few { forms.now.columns ≤ most_columns }
    ensures test { result
        ≡ is_asked (sense_of forms.now.sense) forms.now.columns (option_map N.value value) column
        (N.value sum) }
    ensures counted { NeverFell L.ops L.wides ledger.old ledger.new }
{
    match value {
        Some(value) => {
            let target = target_at(forms.sense, forms.columns, value, column, ledger);
            is_same(sum, target)
        }
        None => {
            if column == 0 {
                is_positive(sum)
            } else {
                is_same(sum, zero(ledger))
            }
        }
    }
}

/// Whether the items sum to what they must in a column.
fn sum_holds<N: Exact, L: Ledger>(
    forms: &Forms,
    items: &[Item<N>],
    value: Option<N>,
    column: u32,
    ledger: &mut L,
) -> Result<bool, Wide>
    requires fits { FormsFit N.limit forms.now }
    requires few { forms.now.columns ≤ most_columns }
    requires items { Each (TakesForm forms.now.matrices) (map (item_of N.value) items.now) }
    ensures exact { result_ok result
        ≡ (sum_test N.limit forms.now.matrices (sense_of forms.now.sense) forms.now.columns
        (option_map N.value value) (map (item_of N.value) items.now) column).holds }
    ensures counted { CountsTold L.ops L.wides ledger.old ledger.new result }
{
    let sum = column_sum(forms, items, column as usize, ledger)?;
    Ok(is_asked_sum(forms, value, column, sum, ledger))
}

/// The verdict on the sums: in each decision column, in `tau`, and last in the constant.
pub fn check_sums<N: Exact, L: Ledger>(
    forms: &Forms,
    items: &[Item<N>],
    value: Option<N>,
    ledger: &mut L,
) -> Verdict
    requires fits { FormsFit N.limit forms.now }
    requires few { forms.now.columns ≤ most_columns }
    requires items { Each (TakesForm forms.now.matrices) (map (item_of N.value) items.now) }
    ensures exact { result ≡ verdict
        (sum_tests N.limit forms.now.matrices (sense_of forms.now.sense) forms.now.columns
        (option_map N.value value) (map (item_of N.value) items.now)) }
    ensures counted { Counted L.ops L.wides ledger.old ledger.new result }
{
    for column in 1..forms.columns + 2 {
        let test = sum_holds(forms, items, value, column, ledger);
        match judge(Place::Sum(column), test) {
            Verdict::Accepted => {}
            flaw => return flaw,
        }
    }
    let test = sum_holds(forms, items, value, 0, ledger);
    judge(Place::Sum(0), test)
}
