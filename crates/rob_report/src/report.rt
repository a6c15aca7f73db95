//! The report of a certificate, as it is printed.

ghost use Rattle.std.specs.Prelude.{◌≡◌, ◌<◌, ◌≤◌, ◌+◌, ◌^◌, ◌++◌, length, map, IfOk, OnOk};
ghost use Rattle.rob_cert.specs.Shape.{HasShape};
ghost use Rattle.rob_cert.specs.View.{certificate_of};
ghost use Rattle.rob_meaning.specs.RobustModel.{column_count, column_from};
ghost use Rattle.rob_model.specs.Valid.{IsValid};
ghost use Rattle.rob_model.specs.View.{adaptive_of, parameter_of, robust, variable_of};
ghost use Rattle.rob_report.specs.Report.{coefficient_text, coefficients_text, optimal_text, policies_text, policy_line, report_of, variables_text};

use rob_cert::spelling::{put_named, put_number, put_single};
use rob_cert::{Cert, Status};
use rob_model::group::parameter_name;
use rob_model::{Adaptive, Model, Param, Var};
use rob_number::{Exact, Memory, Text};
use std::alloc::Global;

/// What a certificate claims of a model. An optimal one has the lines `optimal VALUE`, `here NAME NUM` for each
/// variable, and `policy NAME CONSTANT` with ` NUM*PARAM` for each parameter of an adaptive variable's list; the others
/// have one line, `infeasible` or `unbounded`.
pub fn report_text<N: Exact>(
    alloc: Global,
    model: &Model<N>,
    cert: &Cert<N>,
) -> Result<Text, Memory>
    requires valid { IsValid N.value model.now }
    requires shape { HasShape (robust N.value model.now) (certificate_of N.value cert.now) }
    ensures text { IfOk result (λ text. text
        ≡ report_of (robust N.value model.now) (certificate_of N.value cert.now)) }
{
    let mut text = Text::new(alloc);
    put_report(model, cert, &mut text)?;
    Ok(text)
}

/// Appends the lines of the report; `report_text` says which they are.
pub fn put_report<N: Exact>(model: &Model<N>, cert: &Cert<N>, out: &mut Text) -> Result<(), Memory>
    requires valid { IsValid N.value model.now }
    requires shape { HasShape (robust N.value model.now) (certificate_of N.value cert.now) }
    ensures appended { OnOk result (out.new
        ≡ out.old ++ report_of (robust N.value model.now) (certificate_of N.value cert.now)) }
{
    match cert.status {
        Status::Optimal => put_optimal(model, cert.value, cert.plan.items(), out),
        Status::Infeasible => out.push(b"infeasible\n"),
        Status::Unbounded => out.push(b"unbounded\n"),
    }
}

/// Appends the lines of an optimal certificate.
fn put_optimal<N: Exact>(
    model: &Model<N>,
    value: N,
    plan: &[N],
    out: &mut Text,
) -> Result<(), Memory>
    requires valid { IsValid N.value model.now }
    requires columns { length plan.now ≡ column_count (robust N.value model.now) }
    ensures appended { OnOk result (out.new
        ≡ out.old ++ optimal_text (robust N.value model.now) (N.value value)
        (map N.value plan.now)) }
{
    put_single(out, b"optimal", value)?;
    put_variables(model.vars.items(), plan, out)?;
    let first = model.vars.items().len();
    put_policies(
        model.params.items(),
        model.adaptives.items(),
        plan,
        first,
        out,
    )
}

/// Appends the line of each variable. Theirs are the first columns of the plan.
fn put_variables<N: Exact>(vars: &[Var<N>], plan: &[N], out: &mut Text) -> Result<(), Memory>
    requires columns { length vars.now ≤ length plan.now }
    ensures appended { OnOk result (out.new
        ≡ out.old ++ variables_text (map N.value plan.now) 0 (map (variable_of N.value) vars.now)) }
{
    for (column, var) in vars.iter().enumerate() {
        put_named(out, b"here", var.name.bytes(), plan[column])?;
    }
    Ok(())
}

/// Appends the line of each adaptive variable, the columns of the first one beginning at `first`.
fn put_policies<N: Exact>(
    params: &[Param<N>],
    rules: &[Adaptive<N>],
    plan: &[N],
    first: usize,
    out: &mut Text,
) -> Result<(), Memory>
    requires columns { column_from first (map (adaptive_of N.value) rules.now) (length rules.now)
        ≤ length plan.now }
    requires few { length plan.now < 2 ^ 32 }
    ensures appended { OnOk result (out.new ≡ out.old ++ policies_text (map N.value plan.now)
        (map (parameter_of N.value) params.now) first (map (adaptive_of N.value) rules.now)) }
{
    let mut column = first;
    for rule in rules {
        put_policy(params, rule, plan, column, out)?;
        column += 1 + rule.on.items().len();
    }
    Ok(())
}

/// Appends the line of an adaptive variable, whose columns begin at `column`.
fn put_policy<N: Exact>(
    params: &[Param<N>],
    rule: &Adaptive<N>,
    plan: &[N],
    column: usize,
    out: &mut Text,
) -> Result<(), Memory>
    requires columns { column + length rule.now.on < length plan.now }
    ensures appended { OnOk result (out.new ≡ out.old ++ policy_line (map N.value plan.now)
        (map (parameter_of N.value) params.now) column (adaptive_of N.value rule.now)) }
{
    out.push(b"policy ")?;
    out.push(rule.name.bytes())?;
    out.push(b" ")?;
    put_number(out, plan[column])?;
    put_coefficients(params, rule.on.items(), plan, column + 1, out)?;
    out.push(b"\n")
}

/// Appends ` NUM*PARAM` for each parameter of a list, the first coefficient having decision column `column`.
fn put_coefficients<N: Exact>(
    params: &[Param<N>],
    on: &[u32],
    plan: &[N],
    column: usize,
    out: &mut Text,
) -> Result<(), Memory>
    requires columns { column + length on.now ≤ length plan.now }
    ensures appended { OnOk result (out.new ≡ out.old ++ coefficients_text (map N.value plan.now)
        (map (parameter_of N.value) params.now) column on.now) }
{
    let mut place = column;
    for k in on {
        put_coefficient(out, plan[place], parameter_name(params, *k))?;
        place += 1;
    }
    Ok(())
}

/// Appends ` NUM*PARAM`.
fn put_coefficient<N: Exact>(out: &mut Text, number: N, name: &[u8]) -> Result<(), Memory>
    ensures appended { OnOk result (out.new
        ≡ out.old ++ coefficient_text (N.value number) name.now) }
{
    out.push(b" ")?;
    put_number(out, number)?;
    out.push(b"*")?;
    out.push(name)
}
