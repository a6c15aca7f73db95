//! What is written of expressions, and of the names and numbers in them.

ghost use Rattle.std.specs.Prelude.{◌≡◌, true, [], get_or, map, fold, OnOk, option_map};
ghost use Rattle.rob_meaning.specs.RobustModel.{Parameter, Variable, AdaptiveVariable, written_count};
ghost use Rattle.rob_model.specs.View.{robust, expression_of, signed_of, terms_of, factors_of, relation_of, parameter_of, variable_of, adaptive_of};
ghost use Rattle.rob_write.specs.Pages.{put};
ghost use Rattle.rob_write.specs.WrittenModel.{written, terms_written, factors_written};
ghost use Rattle.rob_write.specs.ExpressionWords.{name_at, naming_of, number_words, divisor_words, paren, expression_words, term_words, factor_words, minus_words};
ghost use Rattle.rob_write.specs.StatementWords.{bound_words, comparison_words, relation_word};
ghost use Rattle.rob_write.specs.ExpressionWords as spec;

use crate::page::Page;
use crate::written::{written_number, written_params};
use rob_model::{Adaptive, Expr, Model, Param, Rel, Term, Var};
use rob_number::{Exact, Memory};
use rob_syntax::{Keyword, Mark};

/// Writes two sides and what stands between them.
pub fn put_comparison<N: Exact>(
    page: &mut Page,
    model: &Model<N>,
    left: &Expr<N>,
    rel: Rel,
    right: &Expr<N>,
) -> Result<(), Memory>
    ensures written { OnOk result (page.new
        ≡ fold put page.old (comparison_words (naming_of (robust N.value model.now))
        (written (written_count (robust N.value model.now)) (expression_of N.value left.now))
        (relation_of rel)
        (written (written_count (robust N.value model.now)) (expression_of N.value right.now)))) }
{
    put_expression(page, model, left)?;
    put_relation(page, rel)?;
    put_expression(page, model, right)
}

/// Writes the sign of a relation.
fn put_relation(page: &mut Page, rel: Rel) -> Result<(), Memory>
    ensures written { OnOk result (page.new ≡ put page.old (relation_word (relation_of rel))) }
{
    match rel {
        Rel::AtMost => page.sign(Mark::AtMost),
        Rel::AtLeast => page.sign(Mark::AtLeast),
        Rel::Equal => page.sign(Mark::Equal),
    }
}

/// Writes an expression.
#[cycle(write)]
pub fn put_expression<N: Exact>(
    page: &mut Page,
    model: &Model<N>,
    expression: &Expr<N>,
) -> Result<(), Memory>
    ensures written { OnOk result (page.new ≡ fold put page.old
        (expression_words (naming_of (robust N.value model.now))
        (written (written_count (robust N.value model.now))
        (expression_of N.value expression.now)))) }
{
    match expression {
        Expr::Number(number) => put_number(page, *number),
        Expr::Param(k) => put_parameter_name(page, model, written_number(model, *k)),
        Expr::Var(k) => page.name(variable_name(model.vars.items(), *k)),
        Expr::Adaptive(k) | Expr::AdaptiveIn(k, _) => page.name(adaptive_name(
            model.adaptives.items(),
            *k,
        )),
        Expr::Sum(terms) => put_terms(page, model, terms.items()),
        Expr::Product(factors) => put_factors(page, model, factors.items()),
    }
}

/// Writes the terms of a sum.
#[cycle(write)]
fn put_terms<N: Exact>(page: &mut Page, model: &Model<N>, terms: &[Term<N>]) -> Result<(), Memory>
    ensures written { OnOk result (page.new ≡ fold put page.old
        (term_words (naming_of (robust N.value model.now)) true
        (terms_written (written_count (robust N.value model.now))
        (terms_of (map (signed_of N.value) terms.now))))) }
{
    let mut first = true;
    for term in terms {
        put_lead(page, first, term.minus)?;
        put_paren(page, is_sum(&term.inner), Mark::Open)?;
        put_expression(page, model, &term.inner)?;
        put_paren(page, is_sum(&term.inner), Mark::Close)?;
        first = false;
    }
    Ok(())
}

/// Writes the factors of a product.
#[cycle(write)]
fn put_factors<N: Exact>(
    page: &mut Page,
    model: &Model<N>,
    factors: &[Expr<N>],
) -> Result<(), Memory>
    ensures written { OnOk result (page.new ≡ fold put page.old
        (factor_words (naming_of (robust N.value model.now)) true
        (factors_written (written_count (robust N.value model.now))
        (factors_of (map (expression_of N.value) factors.now))))) }
{
    let mut first = true;
    for factor in factors {
        put_times(page, first)?;
        put_paren(page, is_compound(factor), Mark::Open)?;
        put_expression(page, model, factor)?;
        put_paren(page, is_compound(factor), Mark::Close)?;
        first = false;
    }
    Ok(())
}

/// Whether an expression is a sum.
fn is_sum<N: Exact>(expression: &Expr<N>) -> bool
    ensures holds { result ≡ spec.is_sum (expression_of N.value expression.now) }
{
    matches!(expression, Expr::Sum(_))
}

/// Whether an expression is a sum or a product.
fn is_compound<N: Exact>(expression: &Expr<N>) -> bool
    ensures holds { result ≡ spec.is_compound (expression_of N.value expression.now) }
{
    matches!(expression, Expr::Sum(_) | Expr::Product(_))
}

/// Writes the sign in front of a term, if there is one.
fn put_lead(page: &mut Page, first: bool, minus: bool) -> Result<(), Memory>
    ensures written { OnOk result (page.new ≡ fold put page.old (spec.lead first minus)) }
{
    match (first, minus) {
        (true, _) => put_minus(page, minus),
        (false, true) => page.sign(Mark::Minus),
        (false, false) => page.sign(Mark::Plus),
    }
}

/// Writes the sign in front of a factor, if there is one.
fn put_times(page: &mut Page, first: bool) -> Result<(), Memory>
    ensures written { OnOk result (page.new ≡ fold put page.old (spec.times first)) }
{
    if first { Ok(()) } else { page.sign(Mark::Star) }
}

/// Writes a parenthesis, if there is one.
fn put_paren(page: &mut Page, is_enclosed: bool, mark: Mark) -> Result<(), Memory>
    ensures written { OnOk result (page.new ≡ fold put page.old (paren is_enclosed mark)) }
{
    if is_enclosed { page.sign(mark) } else { Ok(()) }
}

/// Writes the name of a written parameter.
pub fn put_parameter_name<N: Exact>(page: &mut Page, model: &Model<N>, k: u32) -> Result<(), Memory>
    ensures written { OnOk result
        (page.new ≡ put page.old (name_at (naming_of (robust N.value model.now)).parameters k)) }
{
    page.name(parameter_name(written_params(model), k))
}

/// The name of a parameter.
fn parameter_name<N: Exact>(params: &[Param<N>], k: u32) -> &[u8]
    ensures name { result.now ≡ get_or (map (λ (x : Parameter). x.name)
        (map (parameter_of N.value) params.now)) k [] }
{
    if (k as usize) < params.len() {
        params[k as usize].name.bytes()
    } else {
        b""
    }
}

/// The name of a variable.
fn variable_name<N: Exact>(vars: &[Var<N>], k: u32) -> &[u8]
    ensures name { result.now ≡ get_or (map (λ (x : Variable). x.name)
        (map (variable_of N.value) vars.now)) k [] }
{
    if (k as usize) < vars.len() {
        vars[k as usize].name.bytes()
    } else {
        b""
    }
}

/// The name of an adaptive variable.
fn adaptive_name<N: Exact>(adaptives: &[Adaptive<N>], k: u32) -> &[u8]
    ensures name { result.now
        ≡ get_or (map (λ (x : AdaptiveVariable). x.name) (map (adaptive_of N.value) adaptives.now))
        k [] }
{
    if (k as usize) < adaptives.len() {
        adaptives[k as usize].name.bytes()
    } else {
        b""
    }
}

/// Writes the comma in front of an item, if there is one.
pub fn put_comma(page: &mut Page, first: bool) -> Result<(), Memory>
    ensures written { OnOk result (page.new ≡ fold put page.old (spec.comma first)) }
{
    if first {
        Ok(())
    } else {
        page.sign(Mark::Comma)
    }
}

/// Writes the bounds that are there.
pub fn put_bounds<N: Exact>(
    page: &mut Page,
    lower: Option<N>,
    upper: Option<N>,
) -> Result<(), Memory>
    ensures written { OnOk result (page.new
        ≡ fold put page.old (bound_words (option_map N.value lower) (option_map N.value upper))) }
{
    match (lower, upper) {
        (None, None) => Ok(()),
        (Some(lower), None) => {
            page.sign(Mark::AtLeast)?;
            put_number(page, lower)
        }
        (None, Some(upper)) => {
            page.sign(Mark::AtMost)?;
            put_number(page, upper)
        }
        (Some(lower), Some(upper)) => {
            page.keyword(Keyword::In)?;
            page.sign(Mark::OpenBracket)?;
            put_number(page, lower)?;
            page.sign(Mark::Comma)?;
            put_number(page, upper)?;
            page.sign(Mark::CloseBracket)
        }
    }
}

/// Writes a number in lowest terms.
pub fn put_number<N: Exact>(page: &mut Page, number: N) -> Result<(), Memory>
    ensures written { OnOk result (page.new ≡ fold put page.old (number_words (N.value number))) }
{
    put_minus(page, number.num() < 0)?;
    page.digits(number.num().unsigned_abs())?;
    put_divisor(page, number.den().unsigned_abs())
}

/// Writes a divisor that isn't 1.
fn put_divisor(page: &mut Page, den: u64) -> Result<(), Memory>
    ensures written { OnOk result (page.new ≡ fold put page.old (divisor_words den)) }
{
    if den == 1 {
        return Ok(());
    }
    page.sign(Mark::Slash)?;
    page.digits(den)
}

/// Writes a `-` in front of a number or of an expression, if there is one.
fn put_minus(page: &mut Page, minus: bool) -> Result<(), Memory>
    ensures written { OnOk result (page.new ≡ fold put page.old (minus_words minus)) }
{
    if minus { page.negative() } else { Ok(()) }
}
