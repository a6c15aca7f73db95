//! The covers and the items of a certificate of a run: covers by form and set row, items by form and round.

ghost use Rattle.std.specs.Prelude.{◌≡◌, ◌≤◌, ◌<◌, ◌++◌, ◌∷◌, [], ◌^◌, nat_abs, map, length, IfOk};
ghost use Rattle.rob_algebra.specs.Fraction.{of_int};
ghost use Rattle.rob_meaning.specs.Places.{at, Each};
ghost use Rattle.rob_cert.specs.View.{cover_of, item_of};
ghost use Rattle.rob_counterpart.specs.MasterItems.{weighted_kept};
ghost use Rattle.rob_counterpart.specs.ReadNumbers.{covers_kept};
ghost use Rattle.rob_runs.specs.Readings.{by_form, of_form};
ghost use Rattle.rob_cuts.specs.Items.{weighted_cuts, covers_of_form, item_told};
ghost use Rattle.rob_cuts.specs.Rounds.{cuts_told, RoundFits};

use rob_cert::{Cover, Item, Round};
use rob_dualize::numbers::whole;
use rob_number::{Exact, List, Memory};
use std::alloc::Global;

/// Appends the covers of a form: its amounts that are not 0, by set row.
pub fn append_covers<N: Exact>(
    form: u32,
    amounts: &[N],
    covers: &mut List<Cover<N>>,
) -> Result<(), Memory>
    requires few { length amounts.now < 2 ^ 32 }
    ensures covers { IfOk result (λ _. map (cover_of N.value) covers.new
        ≡ map (cover_of N.value) covers.old ++ covers_of_form form (map N.value amounts.now)) }
{
    for r in 0..amounts.len() {
        let cover = Cover {
            form,
            set_row: r as u32,
            amount: amounts[r],
        };
        append_cover(cover, covers)?;
    }
    Ok(())
}

/// Appends a cover, unless its amount is 0.
fn append_cover<N: Exact>(cover: Cover<N>, covers: &mut List<Cover<N>>) -> Result<(), Memory>
    ensures covers { IfOk result (λ _. map (cover_of N.value) covers.new
        ≡ map (cover_of N.value) covers.old ++ covers_kept (cover_of N.value cover ∷ [])) }
{
    if cover.amount.sign() == 0 {
        return Ok(());
    }
    covers.push(cover)
}

/// The cuts of the rounds with their weights as items, by form and then by round; those of weight 0 are left out.
pub fn items<N: Exact>(
    alloc: Global,
    forms: u32,
    rounds: &[Round],
    weights: &[N],
) -> Result<List<Item<N>>, Memory>
    requires fits { Each (RoundFits N.limit) rounds.now }
    requires weights { length weights.now ≡ length rounds.now }
    ensures items { IfOk result (λ list. map (item_of N.value) list
        ≡ by_form forms
        (weighted_cuts (cuts_told rounds.now) (at (map N.value weights.now)) (length rounds.now))) }
{
    let mut all = List::new(alloc);
    for form in 0..forms {
        append_items(alloc, form, rounds, weights, &mut all)?;
    }
    Ok(all)
}

/// Appends those of a form.
fn append_items<N: Exact>(
    alloc: Global,
    form: u32,
    rounds: &[Round],
    weights: &[N],
    all: &mut List<Item<N>>,
) -> Result<(), Memory>
    requires fits { Each (RoundFits N.limit) rounds.now }
    requires weights { length weights.now ≡ length rounds.now }
    ensures items { IfOk result (λ _. map (item_of N.value) all.new
        ≡ map (item_of N.value) all.old
        ++ of_form form
        (weighted_cuts (cuts_told rounds.now) (at (map N.value weights.now)) (length rounds.now))) }
{
    for q in 0..rounds.len() {
        append_item(alloc, form, &rounds[q], weights[q], all)?;
    }
    Ok(())
}

/// Appends a round's cut with its weight, if it is of the form, and unless its weight is 0.
fn append_item<N: Exact>(
    alloc: Global,
    form: u32,
    round: &Round,
    weight: N,
    all: &mut List<Item<N>>,
) -> Result<(), Memory>
    requires fits { RoundFits N.limit round.now }
    ensures items { IfOk result (λ _. map (item_of N.value) all.new
        ≡ map (item_of N.value) all.old ++ of_form form
        (weighted_kept (item_told round.now (N.value weight) ∷ []))) }
{
    if round.form != form || weight.sign() == 0 {
        return Ok(());
    }
    all.push(item(alloc, round, weight)?)
}

/// The round's cut with its weight.
fn item<N: Exact>(alloc: Global, round: &Round, weight: N) -> Result<Item<N>, Memory>
    requires fits { RoundFits N.limit round.now }
    ensures item { IfOk result (λ item. item_of N.value item
        ≡ item_told round.now (N.value weight)) }
{
    let vector = vector(alloc, round.vector.items())?;
    Ok(Item {
        form: round.form,
        weight,
        base: whole(round.base),
        vector,
    })
}

/// Whole numbers as exact numbers.
fn vector<N: Exact>(alloc: Global, numbers: &[i64]) -> Result<List<N>, Memory>
    requires fits { Each (λ a. nat_abs a ≤ N.limit) numbers.now }
    ensures vector { IfOk result (λ list. map N.value list ≡ map of_int numbers.now) }
{
    let mut vector = List::new(alloc);
    for number in numbers {
        vector.push(whole(*number))?;
    }
    Ok(vector)
}
