//! Plans, covers and items, read off the numbers of an ending. The columns of a pair, and a pair of equating rows,
//! count as the difference of their numbers.

ghost use Rattle.std.specs.Prelude.{◌≡◌, ◌<◌, ◌≤◌, ◌+◌, ◌*◌, ◌++◌, suc, map, length, IfOk};
ghost use Rattle.std.specs.Bool.{Decides};
ghost use Rattle.rob_algebra.specs.Fraction.{◌-ℚ◌};
ghost use Rattle.rob_meaning.specs.Places.{0ℚ};
ghost use Rattle.rob_cert.specs.View.{cover_of, item_of};
ghost use Rattle.rob_counterpart.specs.Splitting.{difference as difference_of, OneIsZero, plus, minus};
ghost use Rattle.rob_counterpart.specs.Reform.{pairs};
ghost use Rattle.rob_dualize.specs.Numbers.{told, KeepPairs, KeepRows};
ghost use Rattle.rob_counterpart.specs.ReadNumbers.{differences, covers_at, covers_to, vector_at, items_to, all_zero, covers_kept};
ghost use Rattle.rob_dualize.specs.Wholes.{wholes_in, counterpart_in, FitsSolver, IsFew};

use crate::elaborated::Elaborated;
use crate::numbers::whole;
use rob_cert::{Cover, Item};
use rob_number::{Exact, List, Memory};
use std::alloc::Global;

/// The difference of two numbers of which one is 0: so it is one of them or its negation, and no wider.
pub fn difference<N: Exact>(first: N, second: N) -> N
    requires one { OneIsZero (N.value first) (N.value second) }
    ensures value { N.value result ≡ N.value first -ℚ N.value second }
{
    if is_zero(second) { first } else { second.neg() }
}

/// The difference of pair j.
pub fn pair_difference<N: Exact>(numbers: &[N], j: usize) -> N
    requires inside { suc (j + j) < length numbers.now }
    requires one { OneIsZero (told N.value numbers.now (plus j))
        (told N.value numbers.now (minus j)) }
    ensures difference { N.value result ≡ difference_of (told N.value numbers.now) j }
{
    difference(numbers[2 * j], numbers[2 * j + 1])
}

/// The differences of the first pairs.
pub fn pair_differences<N: Exact>(
    alloc: Global,
    numbers: &[N],
    count: usize,
) -> Result<List<N>, Memory>
    requires inside { count + count ≤ length numbers.now }
    requires pairs { KeepPairs N.value numbers.now count }
    ensures differences { IfOk result (λ list. map N.value list
        ≡ differences count (told N.value numbers.now)) }
{
    let mut plan = List::new(alloc);
    for j in 0..count {
        plan.push(pair_difference(numbers, j))?;
    }
    Ok(plan)
}

/// The covers, by form and set row: the multipliers that are not 0.
pub fn covers<N: Exact>(
    alloc: Global,
    model: Elaborated,
    numbers: &[N],
) -> Result<List<Cover<N>>, Memory>
    requires few { IsFew (counterpart_in model) }
    requires numbers { length numbers.now ≡ (counterpart_in model).n }
    ensures covers { IfOk result (λ list. map (cover_of N.value) list
        ≡ covers_to (wholes_in model.entry) (length model.entry.forms.now.matrices)
        (told N.value numbers.now)) }
{
    let mut all = List::new(alloc);
    for i in 0..model.forms.matrices.items().len() {
        append_covers(model, numbers, i, &mut all)?;
    }
    Ok(all)
}

/// Appends the covers of form i.
fn append_covers<N: Exact>(
    model: Elaborated,
    numbers: &[N],
    i: usize,
    all: &mut List<Cover<N>>,
) -> Result<(), Memory>
    requires few { IsFew (counterpart_in model) }
    requires numbers { length numbers.now ≡ (counterpart_in model).n }
    requires form_in { i < length model.forms.now.matrices }
    ensures covers { IfOk result (λ _. map (cover_of N.value) all.new
        ≡ map (cover_of N.value) all.old
        ++ covers_kept (covers_at (wholes_in model.entry) (told N.value numbers.now) i)) }
{
    let rows = model.set.rows.items().len();
    let first = 2 * (model.forms.columns as usize + 1) + i * rows;
    for r in 0..rows {
        let amount = numbers[first + r];
        if !is_zero(amount) {
            let cover = Cover {
                form: i as u32,
                set_row: r as u32,
                amount,
            };
            all.push(cover)?;
        }
    }
    Ok(())
}

/// The items, by form: those whose base and vector are not all 0. Each has weight 1.
pub(crate) fn items<N: Exact>(
    alloc: Global,
    model: Elaborated,
    numbers: &[N],
) -> Result<List<Item<N>>, Memory>
    requires model { FitsSolver N.limit model }
    requires numbers { length numbers.now ≡ (counterpart_in model).m }
    requires pairs { KeepRows N.value (wholes_in model) numbers.now }
    ensures items { IfOk result (λ list. map (item_of N.value) list
        ≡ items_to (wholes_in model.entry) (length model.entry.forms.now.matrices)
        (told N.value numbers.now)) }
{
    let rows = 2 * model.set.columns as usize + 1;
    let mut all = List::new(alloc);
    for i in 0..model.forms.matrices.items().len() {
        let vector = vector(alloc, model, numbers, i)?;
        let base = numbers[i * rows + 2 * model.set.columns as usize];
        if !is_zero(base) || !are_zero(vector.items()) {
            let item = Item {
                form: i as u32,
                weight: whole(1),
                base,
                vector,
            };
            all.push(item)?;
        }
    }
    Ok(all)
}

/// The vector of form i.
fn vector<N: Exact>(
    alloc: Global,
    model: Elaborated,
    numbers: &[N],
    i: usize,
) -> Result<List<N>, Memory>
    requires model { FitsSolver N.limit model }
    requires numbers { length numbers.now ≡ (counterpart_in model).m }
    requires pairs { KeepRows N.value (wholes_in model) numbers.now }
    requires form_in { i < length model.forms.now.matrices }
    ensures vector { IfOk result (λ list. map N.value list
        ≡ vector_at (wholes_in model.entry) (told N.value numbers.now) i) }
{
    let first = i * (2 * model.set.columns as usize + 1);
    let mut vector = List::new(alloc);
    for c in 0..model.forms.params as usize {
        let positive = numbers[first + 2 * c];
        let negative = numbers[first + 2 * c + 1];
        vector.push(difference(negative, positive))?;
    }
    Ok(vector)
}

/// Whether the number is 0.
fn is_zero<N: Exact>(number: N) -> bool
    ensures zero { Decides result (N.value number ≡ 0ℚ) }
{
    number.sign() == 0
}

/// Whether each number is 0.
fn are_zero<N: Exact>(numbers: &[N]) -> bool
    ensures zero { result ≡ all_zero (map N.value numbers.now) }
{
    for number in numbers {
        if !is_zero(*number) {
            return false;
        }
    }
    true
}
