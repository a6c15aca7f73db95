//! The forms of the declared bounds of variables and of adaptive variables.

ghost use Rattle.std.specs.Prelude.{◌<◌, ◌+◌, zero, length, option_map, if◌then◌else◌};
ghost use Rattle.rob_number.specs.Counts.{NeverFell};
ghost use Rattle.rob_meaning.specs.Expressions.{number as constant};
ghost use Rattle.rob_meaning.specs.SetConditions.{if_declared};
ghost use Rattle.rob_meaning.specs.Forms.{adaptive_forms, bound_forms, difference, variable_forms};
ghost use Rattle.rob_meaning.specs.WellFormed.{IsExpression};
ghost use Rattle.rob_model.specs.Valid.{IsValid};
ghost use Rattle.rob_model.specs.View.{robust, expression_of};
ghost use Rattle.rob_elab.specs.Appending.{Appends};

use crate::rows::append_difference;
use rob_model::{Expr, Model};
use rob_number::{Exact, Ledger, List};
use rob_sets::ElabErr;
use std::alloc::Global;

/// Clears and appends the forms of the declared bounds of all variables, in order.
pub fn append_variable_bounds<N: Exact, L: Ledger>(
    alloc: Global,
    model: &Model<N>,
    matrices: &mut List<List<List<i64>>>,
    ledger: &mut L,
) -> Result<(), ElabErr>
    requires valid { IsValid N.value model.now }
    requires few { length matrices.old < 5000 }
    ensures forms { Appends N.limit (robust N.value model.now) (length matrices.old)
        (variable_forms zero (robust N.value model.now).variables)
        matrices.old matrices.new (L.wides ledger.old) (L.wides ledger.new) result }
    ensures counted { NeverFell L.ops L.wides ledger.old ledger.new }
{
    let mut number: u32 = 0;
    for variable in model.vars.items() {
        let bounded: Expr<N> = Expr::Var(number);
        let bounds = Bounds {
            bounded: &bounded,
            lower: &variable.lower,
            upper: &variable.upper,
        };
        append_bounds(alloc, model, bounds, matrices, ledger)?;
        number += 1;
    }
    Ok(())
}

/// Clears and appends the forms of the declared bounds of all adaptive variables, in order.
pub fn append_adaptive_bounds<N: Exact, L: Ledger>(
    alloc: Global,
    model: &Model<N>,
    matrices: &mut List<List<List<i64>>>,
    ledger: &mut L,
) -> Result<(), ElabErr>
    requires valid { IsValid N.value model.now }
    requires few { length matrices.old < 5000 }
    ensures forms { Appends N.limit (robust N.value model.now) (length matrices.old)
        (adaptive_forms zero (robust N.value model.now).adaptives)
        matrices.old matrices.new (L.wides ledger.old) (L.wides ledger.new) result }
    ensures counted { NeverFell L.ops L.wides ledger.old ledger.new }
{
    let mut number: u32 = 0;
    for rule in model.adaptives.items() {
        let bounded: Expr<N> = Expr::Adaptive(number);
        let bounds = Bounds {
            bounded: &bounded,
            lower: &rule.lower,
            upper: &rule.upper,
        };
        append_bounds(alloc, model, bounds, matrices, ledger)?;
        number += 1;
    }
    Ok(())
}

/// An expression and its bounds, as far as they are declared.
#[derive(Clone, Copy)]
struct Bounds<'a, N> {
    bounded: &'a Expr<N>,
    lower: &'a Option<N>,
    upper: &'a Option<N>,
}

/// Clears and appends the forms of the declared bounds of an expression, lower before upper.
fn append_bounds<N: Exact, L: Ledger>(
    alloc: Global,
    model: &Model<N>,
    bounds: Bounds<N>,
    matrices: &mut List<List<List<i64>>>,
    ledger: &mut L,
) -> Result<(), ElabErr>
    requires valid { IsValid N.value model.now }
    requires bounded { IsExpression (robust N.value model.now)
        (expression_of N.value bounds.bounded.now) }
    requires few { length matrices.old + 2 < 10000 }
    ensures forms { Appends N.limit (robust N.value model.now) (length matrices.old)
        (bound_forms (expression_of N.value bounds.entry.bounded.now)
        (option_map N.value bounds.entry.lower.now) (option_map N.value bounds.entry.upper.now))
        matrices.old matrices.new (L.wides ledger.old) (L.wides ledger.new) result }
    ensures counted { NeverFell L.ops L.wides ledger.old ledger.new }
{
    let bounded = bounds.bounded;
    let lower = Bound {
        bounded,
        is_lower: true,
        number: bounds.lower,
    };
    append_bound(alloc, model, lower, matrices, ledger)?;
    let upper = Bound {
        bounded,
        is_lower: false,
        number: bounds.upper,
    };
    append_bound(alloc, model, upper, matrices, ledger)
}

/// One of them: a lower one or an upper one.
#[derive(Clone, Copy)]
struct Bound<'a, N> {
    bounded: &'a Expr<N>,
    is_lower: bool,
    number: &'a Option<N>,
}

/// Clears and appends the form of a declared bound, if there is one: `l - e`, or `e - b`.
fn append_bound<N: Exact, L: Ledger>(
    alloc: Global,
    model: &Model<N>,
    bound: Bound<N>,
    matrices: &mut List<List<List<i64>>>,
    ledger: &mut L,
) -> Result<(), ElabErr>
    requires valid { IsValid N.value model.now }
    requires bounded { IsExpression (robust N.value model.now)
        (expression_of N.value bound.bounded.now) }
    requires few { length matrices.old < 10000 }
    ensures form { Appends N.limit (robust N.value model.now) (length matrices.old)
        (if_declared (λ b. if bound.entry.is_lower
        then difference (constant b) (expression_of N.value bound.entry.bounded.now)
        else difference (expression_of N.value bound.entry.bounded.now) (constant b))
        (option_map N.value bound.entry.number.now))
        matrices.old matrices.new (L.wides ledger.old) (L.wides ledger.new) result }
    ensures counted { NeverFell L.ops L.wides ledger.old ledger.new }
{
    let Bound {
        bounded,
        is_lower,
        number,
    } = bound;
    let Some(value) = number else {
        return Ok(());
    };
    let value = Expr::Number(*value);
    if is_lower {
        append_difference(alloc, model, &value, bounded, matrices, ledger)
    } else {
        append_difference(alloc, model, bounded, &value, matrices, ledger)
    }
}
