//! Plans and directions as vectors, and in whole numbers.

ghost use Rattle.std.specs.Prelude.{◌≡◌, ◌≤◌, ◌∷◌, map, nat_abs, IfOk, IfErr};
ghost use Rattle.rob_algebra.specs.Width.{IsWideWhole};
ghost use Rattle.rob_meaning.specs.Clearing.{whole_at};
ghost use Rattle.rob_meaning.specs.Places.{Each};
ghost use Rattle.rob_sets.specs.FirstWide.{Some_of};
ghost use Rattle.rob_sets.specs.Stops.{StopsFor};
ghost use Rattle.rob_worst.specs.Vectors.{plan_of, step_of};

use rob_dualize::numbers::whole;
use rob_model::Plan;
use rob_number::{Exact, List, Memory};
use rob_sets::clearing::whole as cleared_number;
use rob_sets::error::Stop as Refusal;
use std::alloc::Global;

/// The plan as a vector: 1, a number for each decision column, and its bound.
pub fn plan_vector<N: Exact>(alloc: Global, plan: &Plan<N>) -> Result<List<N>, Memory>
    ensures vector { IfOk result (λ list. map N.value list ≡ plan_of N.value plan.now) }
{
    let mut numbers = vector(alloc, whole(1), plan.columns.items())?;
    numbers.push(plan.bound)?;
    Ok(numbers)
}

/// The direction as a vector: 0, a number for each decision column, and its bound.
pub fn step_vector<N: Exact>(alloc: Global, step: &[N]) -> Result<List<N>, Memory>
    ensures vector { IfOk result (λ list. map N.value list ≡ step_of N.value step.now) }
{
    vector(alloc, whole(0), step)
}

/// A first number, and the others behind it.
fn vector<N: Exact>(alloc: Global, first: N, others: &[N]) -> Result<List<N>, Memory>
    ensures vector { IfOk result (λ list. map N.value list
        ≡ N.value first ∷ map N.value others.now) }
{
    let mut numbers = List::new(alloc);
    numbers.push(first)?;
    for number in others {
        numbers.push(*number)?;
    }
    Ok(numbers)
}

/// The numbers times a denominator that makes them whole.
pub fn cleared<N: Exact>(alloc: Global, numbers: &[N], common: u64) -> Result<List<i64>, Refusal>
    requires within { common ≤ N.limit }
    ensures cleared { IfOk result (λ list. list ≡ map (whole_at common) (map N.value numbers.now)) }
    ensures fits { IfOk result (λ list. Each (λ a. nat_abs a ≤ N.limit) list) }
    ensures wide { IfErr result (StopsFor
        (Some_of (λ q. IsWideWhole N.limit (whole_at common q)) (map N.value numbers.now))) }
{
    let mut list = List::new(alloc);
    for q in numbers {
        match cleared_number(*q, common) {
            Some(number) => list.push(number)?,
            None => return Err(Refusal::Wide),
        }
    }
    Ok(list)
}
