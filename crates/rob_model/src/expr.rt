//! Expressions, as they are written.

use rob_number::List;

/// A part of a sum, with its sign.
#[cycle(expr)]
#[derive(Debug, Drop)]
pub struct Term<N> {
    /// Whether the part is subtracted.
    pub minus: bool,
    pub inner: Expr<N>,
}

/// An expression over a model's parameters and variables. A sum inside a sum stays as it is, and so does a product
/// inside a product: values are computed on the tree as written.
#[cycle(expr)]
#[derive(Debug, Drop)]
pub enum Expr<N> {
    Number(N),
    /// The joint parameter of that number, from 0.
    Param(u32),
    /// The here-and-now variable of that number, from 0 in order of declaration.
    Var(u32),
    /// The adaptive variable of that number, from 0 in order of declaration, taken in the default set.
    Adaptive(u32),
    /// The adaptive variable of the first number, taken in the named set of the second.
    AdaptiveIn(u32, u32),
    Sum(List<Term<N>>),
    Product(List<Expr<N>>),
}
