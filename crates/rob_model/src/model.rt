//! Robust linear models.

use crate::expr::Expr;
use rob_number::{List, Text};

/// Whether a plan's bound is to be small or large.
#[derive(Clone, Copy, Debug, PartialEq, Eq)]
pub enum Sense {
    Minimise,
    Maximise,
}

/// How the two sides of a row or of a set statement stand to one another.
#[derive(Clone, Copy, Debug, PartialEq, Eq)]
pub enum Rel {
    AtMost,
    AtLeast,
    Equal,
}

/// An uncertain parameter, and its declared bounds.
#[derive(Debug, Drop)]
pub struct Param<N> {
    pub name: Text,
    pub lower: Option<N>,
    pub upper: Option<N>,
}

/// A here-and-now variable: it is decided before the scenario is known.
#[derive(Debug, Drop)]
pub struct Var<N> {
    pub name: Text,
    pub lower: Option<N>,
    pub upper: Option<N>,
}

/// An adjustable variable with an affine decision rule: a constant, and a coefficient for each parameter of `on`.
#[derive(Debug)]
pub struct Adaptive<N> {
    pub name: Text,
    /// The numbers of the written parameters that the rule may use.
    pub on: List<u32>,
    pub lower: Option<N>,
    pub upper: Option<N>,
}

impl<N: Drop> Drop for Adaptive<N> {
    /// Lets go of it in one call. A derived drop would stand in each function that does.
    fn drop(self) {
        let Adaptive {
            name: _name,
            on: _on,
            lower: _lower,
            upper: _upper,
        } = self;
    }
}

/// A member of a budget of uncertainty.
#[derive(Clone, Copy, Debug)]
pub struct Member<N> {
    /// The joint parameter's number.
    pub param: u32,
    pub centre: N,
    /// Above 0.
    pub deviation: N,
}

/// A statement on an uncertainty set. Statements of both kinds, and of all sets, are numbered together.
#[derive(Debug, Drop)]
pub enum SetLine<N> {
    /// A linear condition on the parameters.
    Line {
        left: Expr<N>,
        rel: Rel,
        right: Expr<N>,
    },
    /// A budget of uncertainty: the members' distances from their centres, each over its deviation, are together at
    /// most `limit`. (Bertsimas and Sim, The Price of Robustness.)
    Budget {
        limit: N,
        members: List<Member<N>>,
    },
}

/// A robust constraint, kept in every scenario of its set.
#[derive(Debug)]
pub struct RowDef<N> {
    pub name: Text,
    pub left: Expr<N>,
    pub rel: Rel,
    pub right: Expr<N>,
}

impl<N: Drop> Drop for RowDef<N> {
    /// Lets go of it in one call. A derived drop would stand in each function that does.
    fn drop(self) {
        let RowDef {
            name: _name,
            left: _left,
            rel: _rel,
            right: _right,
        } = self;
    }
}

/// A robust linear model with affine decision rules and fixed recourse.
#[derive(Debug)]
pub struct Model<N> {
    /// The joint parameters: those of the default set, then those of each named set.
    pub params: List<Param<N>>,
    /// The named sets, numbered from 1.
    pub sets: List<Text>,
    pub set_lines: List<SetLine<N>>,
    /// The set of each statement.
    pub line_sets: List<u32>,
    pub vars: List<Var<N>>,
    pub adaptives: List<Adaptive<N>>,
    pub sense: Sense,
    pub objective: Expr<N>,
    pub objective_set: u32,
    pub rows: List<RowDef<N>>,
    /// The set of each row.
    pub row_sets: List<u32>,
}

impl<N: Drop> Drop for Model<N> {
    /// Lets go of it in one call. A derived drop would stand in each function that does.
    fn drop(self) {
        let Model {
            params: _params,
            sets: _sets,
            set_lines: _set_lines,
            line_sets: _line_sets,
            vars: _vars,
            adaptives: _adaptives,
            sense: _sense,
            objective: _objective,
            objective_set: _objective_set,
            rows: _rows,
            row_sets: _row_sets,
        } = self;
    }
}
