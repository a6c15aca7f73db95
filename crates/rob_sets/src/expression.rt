//! The coefficients of expressions.

ghost use Rattle.std.specs.Prelude.{◌≡◌, ◌≤◌, ◌<◌, ℕ, map, length, IfOk, IfErr};
ghost use Rattle.rob_number.specs.Counts.{NeverFell};
ghost use Rattle.rob_meaning.specs.Coefficients.{single};
ghost use Rattle.rob_meaning.specs.Degrees.{IsLinear, AreLinear, FactorsLinear, uncertain_degree, decision_degree};
ghost use Rattle.rob_meaning.specs.Expressions.{adaptive_in as rule_in, product as product_of, sum as sum_of};
ghost use Rattle.rob_meaning.specs.RobustModel.{set_count};
ghost use Rattle.rob_meaning.specs.WellFormed.{IsInside, TermsInside, FactorsInside};
ghost use Rattle.rob_model.specs.Valid.{IsValid};
ghost use Rattle.rob_model.specs.View.{robust, expression_of, signed_of, terms_of, factors_of};
ghost use Rattle.rob_sets.specs.Tables.{numbers_of};
ghost use Rattle.rob_sets.specs.Tabulating.{Tabulates};

use crate::error::Stop;
use crate::table::{Cell, Table};
use rob_model::numbers::one;
use rob_model::policy::{column_of, written_count};
use rob_model::{Expr, Model, Term};
use rob_number::{Exact, Ledger};
use std::alloc::Global;

/// The coefficients of an expression, each subexpression in turn, from the left.
#[cycle(coefficients)]
pub fn coefficients<N: Exact, L: Ledger>(
    alloc: Global,
    e: &Expr<N>,
    model: &Model<N>,
    ledger: &mut L,
) -> Result<Table<N>, Stop>
    requires valid { IsValid N.value model.now }
    requires inside { IsInside (robust N.value model.now) (expression_of N.value e.now) }
    requires linear { IsLinear (robust N.value model.now) (expression_of N.value e.now) }
    ensures table { Tabulates N.value N.limit (robust N.value model.now)
        (expression_of N.value e.now) (L.wides ledger.old) (L.wides ledger.new) result }
    ensures counted { NeverFell L.ops L.wides ledger.old ledger.new }
{
    match e {
        Expr::Number(x) => Table::single(alloc, Cell { row: 0, column: 0 }, *x, ledger),
        Expr::Param(k) => unit(
            alloc,
            Cell {
                row: *k + 1,
                column: 0,
            },
            ledger,
        ),
        Expr::Var(k) => unit(
            alloc,
            Cell {
                row: 0,
                column: *k + 1,
            },
            ledger,
        ),
        Expr::Adaptive(y) => rule_table(alloc, model, 0, *y, ledger),
        Expr::AdaptiveIn(y, set) => rule_table(alloc, model, *set, *y, ledger),
        Expr::Sum(terms) => sum(alloc, terms.items(), model, ledger),
        Expr::Product(factors) => product(alloc, factors.items(), model, ledger),
    }
}

/// The coefficients of a sum, term by term.
#[cycle(coefficients)]
fn sum<N: Exact, L: Ledger>(
    alloc: Global,
    terms: &[Term<N>],
    model: &Model<N>,
    ledger: &mut L,
) -> Result<Table<N>, Stop>
    requires valid { IsValid N.value model.now }
    requires inside { TermsInside (robust N.value model.now)
        (terms_of (map (signed_of N.value) terms.now)) }
    requires linear { AreLinear (robust N.value model.now)
        (terms_of (map (signed_of N.value) terms.now)) }
    ensures table { Tabulates N.value N.limit (robust N.value model.now)
        (sum_of (terms_of (map (signed_of N.value) terms.now))) (L.wides ledger.old)
        (L.wides ledger.new) result }
    ensures counted { NeverFell L.ops L.wides ledger.old ledger.new }
{
    let mut so_far = Table::new(alloc);
    for term in terms {
        let part = coefficients(alloc, &term.inner, model, ledger)?;
        so_far.join(term.minus, &part, ledger)?;
    }
    Ok(so_far)
}

/// The coefficients of a product, factor by factor.
#[cycle(coefficients)]
fn product<N: Exact, L: Ledger>(
    alloc: Global,
    factors: &[Expr<N>],
    model: &Model<N>,
    ledger: &mut L,
) -> Result<Table<N>, Stop>
    requires valid { IsValid N.value model.now }
    requires inside { FactorsInside (robust N.value model.now)
        (factors_of (map (expression_of N.value) factors.now)) }
    requires linear { FactorsLinear (robust N.value model.now)
        (factors_of (map (expression_of N.value) factors.now)) }
    requires uncertain { uncertain_degree (robust N.value model.now)
        (product_of (factors_of (map (expression_of N.value) factors.now))) ≤ 1 }
    requires decision { decision_degree (robust N.value model.now)
        (product_of (factors_of (map (expression_of N.value) factors.now))) ≤ 1 }
    ensures table { Tabulates N.value N.limit (robust N.value model.now)
        (product_of (factors_of (map (expression_of N.value) factors.now)))
        (L.wides ledger.old) (L.wides ledger.new) result }
    ensures counted { NeverFell L.ops L.wides ledger.old ledger.new }
{
    let mut so_far: Table<N> = unit(alloc, Cell { row: 0, column: 0 }, ledger)?;
    for factor in factors {
        let part = coefficients(alloc, factor, model, ledger)?;
        so_far = so_far.times(alloc, &part, ledger)?;
    }
    Ok(so_far)
}

/// The table that is 1 at one cell.
pub fn unit<N: Exact, L: Ledger>(
    alloc: Global,
    cell: Cell,
    ledger: &mut L,
) -> Result<Table<N>, Stop>
    ensures number { IfOk result (λ t. (k j : ℕ) → numbers_of N.value t k j
        ≡ single cell.row cell.column k j) }
    ensures memory { IfErr result (λ stop. stop ≡ Stop.Memory) }
    ensures counted { NeverFell L.ops L.wides ledger.old ledger.new }
{
    let number = one(ledger);
    Table::single(alloc, cell, number, ledger)
}

/// The coefficients of an adaptive variable in a set: 1 in the column of its constant, and for each parameter of its
/// list 1 in the row of that set's parameter and in the column of its coefficient.
fn rule_table<N: Exact, L: Ledger>(
    alloc: Global,
    model: &Model<N>,
    set: u32,
    adaptive: u32,
    ledger: &mut L,
) -> Result<Table<N>, Stop>
    requires valid { IsValid N.value model.now }
    requires inside { adaptive < length model.now.adaptives }
    requires set { set < set_count (robust N.value model.now) }
    ensures table { Tabulates N.value N.limit (robust N.value model.now) (rule_in adaptive set)
        (L.wides ledger.old) (L.wides ledger.new) result }
    ensures counted { NeverFell L.ops L.wides ledger.old ledger.new }
{
    let mut column = column_of(model, adaptive) as u32 + 1;
    let first = (set as usize * written_count(model)) as u32;
    let mut table = unit(alloc, Cell { row: 0, column }, ledger)?;
    for parameter in model.adaptives.items()[adaptive as usize].on.items() {
        column += 1;
        let number = one(ledger);
        table.add(
            Cell {
                row: first + *parameter + 1,
                column,
            },
            number,
            ledger,
        )?;
    }
    Ok(table)
}
