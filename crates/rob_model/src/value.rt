//! The value of an expression under a plan in a scenario.

ghost use Rattle.std.specs.Prelude.{◌≡◌, ◌≤◌, map, IfOk};
ghost use Rattle.rob_number.specs.Answer.{answer};
ghost use Rattle.rob_number.specs.Counts.{CountsTold};
ghost use Rattle.rob_algebra.specs.Width.{kept};
ghost use Rattle.rob_meaning.specs.Places.{0ℚ, 1ℚ};
ghost use Rattle.rob_meaning.specs.RobustModel.{column_count};
ghost use Rattle.rob_meaning.specs.Values.{value as value_of};
ghost use Rattle.rob_meaning.specs.WellFormed.{IsInside, TermsInside, FactorsInside};
ghost use Rattle.rob_model.specs.Limits.{most_columns};
ghost use Rattle.rob_model.specs.Valid.{IsValid};
ghost use Rattle.rob_model.specs.View.{robust, expression_of, signed_of, terms_of, factors_of, plan_of, scenario_of};
ghost use Rattle.rob_model.specs.Within.{joined as plus_or_minus, value_within, sum_within, product_within};

use crate::expr::{Expr, Term};
use crate::model::Model;
use crate::numbers::{number_at, one, zero};
use crate::plan::{Plan, Scenario};
use crate::policy::{rule_value, rule_value_in};
use rob_number::{Exact, Ledger, Wide};

/// The value of an expression under a plan in a scenario, by recursion on the tree as it is written. Numbers that the
/// plan or the scenario lacks count as 0.
pub fn value_at<N: Exact, L: Ledger>(
    e: &Expr<N>,
    model: &Model<N>,
    plan: &Plan<N>,
    scenario: &Scenario<N>,
    ledger: &mut L,
) -> Result<N, Wide>
    requires valid { IsValid N.value model.now }
    requires inside { IsInside (robust N.value model.now) (expression_of N.value e.now) }
    // A sum and a product prefix by prefix from the left; refused exactly where a number on the way is wide.
    ensures exact { answer N.value result ≡ value_within N.limit (robust N.value model.now)
        (plan_of N.value plan.now) (scenario_of N.value scenario.now)
        (expression_of N.value e.now) }
    ensures value { IfOk result (λ x. N.value x ≡ value_of (robust N.value model.now)
        (plan_of N.value plan.now) (scenario_of N.value scenario.now)
        (expression_of N.value e.now)) }
    ensures counted { CountsTold L.ops L.wides ledger.old ledger.new result }
{
    evaluate(
        e,
        model,
        plan.columns.items(),
        scenario.values.items(),
        ledger,
    )
}

/// The same at the numbers of a plan's columns and of a scenario.
#[cycle(evaluate)]
pub fn evaluate<N: Exact, L: Ledger>(
    e: &Expr<N>,
    model: &Model<N>,
    columns: &[N],
    values: &[N],
    ledger: &mut L,
) -> Result<N, Wide>
    requires inside { IsInside (robust N.value model.now) (expression_of N.value e.now) }
    requires few { column_count (robust N.value model.now) ≤ most_columns }
    ensures exact { answer N.value result ≡ value_within N.limit (robust N.value model.now)
        (map N.value columns.now) (map N.value values.now) (expression_of N.value e.now) }
    ensures counted { CountsTold L.ops L.wides ledger.old ledger.new result }
{
    match e {
        Expr::Number(x) => Ok(*x),
        Expr::Param(k) => Ok(number_at(values, *k as usize, ledger)),
        Expr::Var(k) => Ok(number_at(columns, *k as usize, ledger)),
        Expr::Adaptive(k) => rule_value(model, *k, columns, values, ledger),
        Expr::AdaptiveIn(k, set) => rule_value_in(model, *set, *k, columns, values, ledger),
        Expr::Sum(terms) => sum(terms.items(), model, columns, values, ledger),
        Expr::Product(factors) => product(factors.items(), model, columns, values, ledger),
    }
}

/// The sum of signed expressions, from 0.
#[cycle(evaluate)]
fn sum<N: Exact, L: Ledger>(
    terms: &[Term<N>],
    model: &Model<N>,
    columns: &[N],
    values: &[N],
    ledger: &mut L,
) -> Result<N, Wide>
    requires inside { TermsInside (robust N.value model.now)
        (terms_of (map (signed_of N.value) terms.now)) }
    requires few { column_count (robust N.value model.now) ≤ most_columns }
    ensures exact { answer N.value result ≡ sum_within N.limit (robust N.value model.now)
        (map N.value columns.now) (map N.value values.now)
        (terms_of (map (signed_of N.value) terms.now)) 0ℚ }
    ensures counted { CountsTold L.ops L.wides ledger.old ledger.new result }
{
    let mut so_far = zero(ledger);
    for term in terms {
        let part = evaluate(&term.inner, model, columns, values, ledger)?;
        so_far = joined(so_far, term.minus, part, ledger)?;
    }
    Ok(so_far)
}

/// The product of expressions, from 1.
#[cycle(evaluate)]
fn product<N: Exact, L: Ledger>(
    factors: &[Expr<N>],
    model: &Model<N>,
    columns: &[N],
    values: &[N],
    ledger: &mut L,
) -> Result<N, Wide>
    requires inside { FactorsInside (robust N.value model.now)
        (factors_of (map (expression_of N.value) factors.now)) }
    requires few { column_count (robust N.value model.now) ≤ most_columns }
    ensures exact { answer N.value result ≡ product_within N.limit (robust N.value model.now)
        (map N.value columns.now) (map N.value values.now)
        (factors_of (map (expression_of N.value) factors.now)) 1ℚ }
    ensures counted { CountsTold L.ops L.wides ledger.old ledger.new result }
{
    let mut so_far: N = one(ledger);
    for factor in factors {
        let part = evaluate(factor, model, columns, values, ledger)?;
        so_far = so_far.mul(part, ledger)?;
    }
    Ok(so_far)
}

/// A sum so far, plus or minus a part.
fn joined<N: Exact, L: Ledger>(so_far: N, minus: bool, part: N, ledger: &mut L) -> Result<N, Wide>
    ensures exact { answer N.value result
        ≡ kept N.limit (plus_or_minus minus (N.value so_far) (N.value part)) }
    ensures counted { CountsTold L.ops L.wides ledger.old ledger.new result }
{
    if minus {
        so_far.sub(part, ledger)
    } else {
        so_far.add(part, ledger)
    }
}
