//! A model equal to another. A model has no `clone`, since each part asks for memory.

ghost use Rattle.std.specs.Prelude.{◌≡◌, ◌++◌, IfOk, OnOk};

use crate::expr::{Expr, Term};
use crate::model::{Adaptive, Model, Param, RowDef, SetLine, Var};
use rob_number::{Exact, List, Memory, Text};
use std::alloc::Global;

/// A model equal to the given one. The one error is want of memory.
pub fn copy_model<N: Exact>(alloc: Global, model: &Model<N>) -> Result<Model<N>, Memory>
    ensures equal { IfOk result (λ copy. copy ≡ model.now) }
{
    Ok(Model {
        params: copy_params(alloc, model.params.items())?,
        sets: copy_texts(alloc, model.sets.items())?,
        set_lines: copy_set_lines(alloc, model.set_lines.items())?,
        line_sets: copy_list(alloc, model.line_sets.items())?,
        vars: copy_vars(alloc, model.vars.items())?,
        adaptives: copy_adaptives(alloc, model.adaptives.items())?,
        sense: model.sense,
        objective: copy_expr(alloc, &model.objective)?,
        objective_set: model.objective_set,
        rows: copy_rows(alloc, model.rows.items())?,
        row_sets: copy_list(alloc, model.row_sets.items())?,
    })
}

/// A list of the same items.
pub fn copy_list<T: Copy>(alloc: Global, items: &[T]) -> Result<List<T>, Memory>
    ensures equal { IfOk result (λ copy. copy ≡ items.now) }
{
    let mut copy = Vec::new(alloc);
    copy.extend_from_slice(items)?;
    Ok(List::from(copy))
}

/// A word as a text.
pub fn word(alloc: Global, bytes: &[u8]) -> Result<Text, Memory>
    ensures equal { IfOk result (λ text. text ≡ bytes.now) }
{
    let mut text = Text::new(alloc);
    text.push(bytes)?;
    Ok(text)
}

/// The same text.
pub fn copy_text(alloc: Global, text: &Text) -> Result<Text, Memory>
    ensures equal { IfOk result (λ copy. copy ≡ text.now) }
{
    let copy = word(alloc, text.bytes())?;
    Ok(copy)
}

/// The same texts.
fn copy_texts(alloc: Global, texts: &[Text]) -> Result<List<Text>, Memory>
    ensures equal { IfOk result (λ copy. copy ≡ texts.now) }
{
    let mut copy = List::new(alloc);
    for text in texts {
        let next = copy_text(alloc, text)?;
        copy.push(next)?;
    }
    Ok(copy)
}

/// The same parameter.
fn copy_param<N: Exact>(alloc: Global, param: &Param<N>) -> Result<Param<N>, Memory>
    ensures equal { IfOk result (λ copy. copy ≡ param.now) }
{
    Ok(Param {
        name: copy_text(alloc, &param.name)?,
        lower: param.lower,
        upper: param.upper,
    })
}

/// The same parameters.
fn copy_params<N: Exact>(alloc: Global, params: &[Param<N>]) -> Result<List<Param<N>>, Memory>
    ensures equal { IfOk result (λ copy. copy ≡ params.now) }
{
    let mut copy = List::new(alloc);
    for param in params {
        let next = copy_param(alloc, param)?;
        copy.push(next)?;
    }
    Ok(copy)
}

/// The same variable.
pub fn copy_var<N: Exact>(alloc: Global, var: &Var<N>) -> Result<Var<N>, Memory>
    ensures equal { IfOk result (λ copy. copy ≡ var.now) }
{
    Ok(Var {
        name: copy_text(alloc, &var.name)?,
        lower: var.lower,
        upper: var.upper,
    })
}

/// The same variables.
fn copy_vars<N: Exact>(alloc: Global, vars: &[Var<N>]) -> Result<List<Var<N>>, Memory>
    ensures equal { IfOk result (λ copy. copy ≡ vars.now) }
{
    let mut copy = List::new(alloc);
    append_vars(alloc, &mut copy, vars)?;
    Ok(copy)
}

/// Appends the same variables.
pub fn append_vars<N: Exact>(
    alloc: Global,
    list: &mut List<Var<N>>,
    vars: &[Var<N>],
) -> Result<(), Memory>
    ensures appended { OnOk result (list.new ≡ list.old ++ vars.now) }
{
    for var in vars {
        let next = copy_var(alloc, var)?;
        list.push(next)?;
    }
    Ok(())
}

/// The same adaptive variable.
fn copy_adaptive<N: Exact>(alloc: Global, adaptive: &Adaptive<N>) -> Result<Adaptive<N>, Memory>
    ensures equal { IfOk result (λ copy. copy ≡ adaptive.now) }
{
    Ok(Adaptive {
        name: copy_text(alloc, &adaptive.name)?,
        on: copy_list(alloc, adaptive.on.items())?,
        lower: adaptive.lower,
        upper: adaptive.upper,
    })
}

/// The same adaptive variables.
fn copy_adaptives<N: Exact>(
    alloc: Global,
    adaptives: &[Adaptive<N>],
) -> Result<List<Adaptive<N>>, Memory>
    ensures equal { IfOk result (λ copy. copy ≡ adaptives.now) }
{
    let mut copy = List::new(alloc);
    for adaptive in adaptives {
        let next = copy_adaptive(alloc, adaptive)?;
        copy.push(next)?;
    }
    Ok(copy)
}

/// The same statement on the uncertainty set.
fn copy_set_line<N: Exact>(alloc: Global, line: &SetLine<N>) -> Result<SetLine<N>, Memory>
    ensures equal { IfOk result (λ copy. copy ≡ line.now) }
{
    match line {
        SetLine::Line { left, rel, right } => Ok(SetLine::Line {
            left: copy_expr(alloc, left)?,
            rel: *rel,
            right: copy_expr(alloc, right)?,
        }),
        SetLine::Budget { limit, members } => Ok(SetLine::Budget {
            limit: *limit,
            members: copy_list(alloc, members.items())?,
        }),
    }
}

/// The same statements.
fn copy_set_lines<N: Exact>(alloc: Global, lines: &[SetLine<N>]) -> Result<List<SetLine<N>>, Memory>
    ensures equal { IfOk result (λ copy. copy ≡ lines.now) }
{
    let mut copy = List::new(alloc);
    for line in lines {
        let next = copy_set_line(alloc, line)?;
        copy.push(next)?;
    }
    Ok(copy)
}

/// The same row.
fn copy_row<N: Exact>(alloc: Global, row: &RowDef<N>) -> Result<RowDef<N>, Memory>
    ensures equal { IfOk result (λ copy. copy ≡ row.now) }
{
    Ok(RowDef {
        name: copy_text(alloc, &row.name)?,
        left: copy_expr(alloc, &row.left)?,
        rel: row.rel,
        right: copy_expr(alloc, &row.right)?,
    })
}

/// The same rows.
fn copy_rows<N: Exact>(alloc: Global, rows: &[RowDef<N>]) -> Result<List<RowDef<N>>, Memory>
    ensures equal { IfOk result (λ copy. copy ≡ rows.now) }
{
    let mut copy = List::new(alloc);
    for row in rows {
        let next = copy_row(alloc, row)?;
        copy.push(next)?;
    }
    Ok(copy)
}

/// The same expression.
#[cycle(copy)]
pub fn copy_expr<N: Exact>(alloc: Global, e: &Expr<N>) -> Result<Expr<N>, Memory>
    ensures equal { IfOk result (λ copy. copy ≡ e.now) }
{
    match e {
        Expr::Number(x) => Ok(Expr::Number(*x)),
        Expr::Param(k) => Ok(Expr::Param(*k)),
        Expr::Var(k) => Ok(Expr::Var(*k)),
        Expr::Adaptive(k) => Ok(Expr::Adaptive(*k)),
        Expr::AdaptiveIn(k, set) => Ok(Expr::AdaptiveIn(*k, *set)),
        Expr::Sum(terms) => Ok(Expr::Sum(copy_terms(alloc, terms.items())?)),
        Expr::Product(factors) => Ok(Expr::Product(copy_factors(alloc, factors.items())?)),
    }
}

/// The same parts of a sum.
#[cycle(copy)]
fn copy_terms<N: Exact>(alloc: Global, terms: &[Term<N>]) -> Result<List<Term<N>>, Memory>
    ensures equal { IfOk result (λ copy. copy ≡ terms.now) }
{
    let mut copy = List::new(alloc);
    for term in terms {
        let inner = copy_expr(alloc, &term.inner)?;
        copy.push(Term {
            minus: term.minus,
            inner,
        })?;
    }
    Ok(copy)
}

/// The same factors of a product.
#[cycle(copy)]
fn copy_factors<N: Exact>(alloc: Global, factors: &[Expr<N>]) -> Result<List<Expr<N>>, Memory>
    ensures equal { IfOk result (λ copy. copy ≡ factors.now) }
{
    let mut copy = List::new(alloc);
    for factor in factors {
        let next = copy_expr(alloc, factor)?;
        copy.push(next)?;
    }
    Ok(copy)
}
