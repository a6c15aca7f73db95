//! The items of a certificate: multiples of forms, each taken at a multiple of a scenario or at a ray.

ghost use Rattle.std.specs.Prelude.{◌≡◌, ◌<◌, ◌^◌, suc, ◌∷◌, length, map};
ghost use Rattle.rob_cert.specs.View.{item_of};
ghost use Rattle.rob_check.specs.Conditions.{column_within, item_tests, item_within, items_tests};
ghost use Rattle.rob_check.specs.Sums.{column as column_of, dot_within};
ghost use Rattle.rob_check.specs.Verdicts.{Counted, verdict};
ghost use Rattle.rob_check.specs.View.{TakesForm};
ghost use Rattle.rob_elab.specs.Forms.{FormsFit, MatrixFits};
ghost use Rattle.rob_meaning.specs.Clearing.{fractions};
ghost use Rattle.rob_meaning.specs.Places.{Each};
ghost use Rattle.rob_model.specs.Valid.{IsValid};
ghost use Rattle.rob_model.specs.View.{robust};
ghost use Rattle.rob_number.specs.Answer.{answer};
ghost use Rattle.rob_number.specs.Counts.{CountsTold};

use crate::scenario::{Taken, check_vector};
use crate::sums::{add_entry, is_nonnegative, is_positive};
use crate::verdict::Verdict;
use rob_cert::Item;
use rob_elab::Forms;
use rob_model::numbers::zero;
use rob_model::{Model, Place};
use rob_number::{Exact, Ledger, List, Wide};

/// A form in a column, taken at a base and a vector: the base times the constant's entry, and each number of the vector
/// times the entry of its parameter.
fn cut_at<N: Exact, L: Ledger>(
    form: &[List<i64>],
    column: usize,
    base: N,
    vector: &[N],
    ledger: &mut L,
) -> Result<N, Wide>
    requires fits { MatrixFits N.limit form.now }
    requires rows { length form.now ≡ suc (length vector.now) }
    ensures exact { answer N.value result
        ≡ dot_within N.limit (N.value base ∷ map N.value vector.now)
        (column_of column (fractions form.now)) }
    ensures counted { CountsTold L.ops L.wides ledger.old ledger.new result }
{
    let nothing: N = zero(ledger);
    let mut sum = add_entry(nothing, base, form[0].items(), column, ledger)?;
    for (k, number) in vector.iter().enumerate() {
        sum = add_entry(sum, *number, form[k + 1].items(), column, ledger)?;
    }
    Ok(sum)
}

/// An item in a column: its weight times its form there.
fn item_at<N: Exact, L: Ledger>(
    forms: &Forms,
    item: &Item<N>,
    column: usize,
    ledger: &mut L,
) -> Result<N, Wide>
    requires fits { FormsFit N.limit forms.now }
    requires form { TakesForm forms.now.matrices (item_of N.value item.now) }
    ensures exact { answer N.value result
        ≡ item_within N.limit forms.now.matrices column (item_of N.value item.now) }
    ensures counted { CountsTold L.ops L.wides ledger.old ledger.new result }
{
    let form = &forms.matrices.items()[item.form as usize];
    let cut = cut_at(form.items(), column, item.base, item.vector.items(), ledger)?;
    item.weight.mul(cut, ledger)
}

/// The sum of the items in a column.
pub fn column_sum<N: Exact, L: Ledger>(
    forms: &Forms,
    items: &[Item<N>],
    column: usize,
    ledger: &mut L,
) -> Result<N, Wide>
    requires fits { FormsFit N.limit forms.now }
    requires items { Each (TakesForm forms.now.matrices) (map (item_of N.value) items.now) }
    ensures exact { answer N.value result
        ≡ column_within N.limit forms.now.matrices (map (item_of N.value) items.now) column }
    ensures counted { CountsTold L.ops L.wides ledger.old ledger.new result }
{
    let mut sum: N = zero(ledger);
    for item in items {
        let part = item_at(forms, item, column, ledger)?;
        sum = sum.add(part, ledger)?;
    }
    Ok(sum)
}

/// The verdict on an item: its weight is above 0, its base is at least 0, and its vector meets the set conditions.
fn check_item<N: Exact, L: Ledger>(
    index: u32,
    model: &Model<N>,
    item: &Item<N>,
    ledger: &mut L,
) -> Verdict
    requires valid { IsValid N.value model.now }
    ensures exact { result ≡ verdict
        (item_tests N.limit (robust N.value model.now) index (item_of N.value item.now)) }
    ensures counted { Counted L.ops L.wides ledger.old ledger.new result }
{
    if !is_positive(item.weight) {
        return Verdict::Rejected(Place::Weight(index));
    }
    if !is_nonnegative(item.base) {
        return Verdict::Rejected(Place::Base(index));
    }
    check_vector(
        Taken::Item(index),
        model,
        item.base,
        item.vector.items(),
        ledger,
    )
}

/// The verdict on the items, in order.
pub fn check_items<N: Exact, L: Ledger>(
    model: &Model<N>,
    items: &[Item<N>],
    ledger: &mut L,
) -> Verdict
    requires valid { IsValid N.value model.now }
    requires few { length items.now < 2 ^ 32 }
    ensures exact { result ≡ verdict (items_tests N.limit (robust N.value model.now) 0
        (map (item_of N.value) items.now)) }
    ensures counted { Counted L.ops L.wides ledger.old ledger.new result }
{
    for (index, item) in items.iter().enumerate() {
        match check_item(index as u32, model, item, ledger) {
            Verdict::Accepted => {}
            flaw => return flaw,
        }
    }
    Verdict::Accepted
}
