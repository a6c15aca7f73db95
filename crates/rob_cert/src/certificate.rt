//! Certificates.

use rob_model::Scenario;
use rob_number::List;

/// What a certificate claims of a model.
#[derive(Clone, Copy, Debug, PartialEq, Eq)]
pub enum Status {
    /// Some plan has the certificate's value as its bound, and no plan has a better one.
    Optimal,
    /// No plan has any bound.
    Infeasible,
    /// Each number is the bound of some plan.
    Unbounded,
}

/// A multiplier of a set row, which helps to cover a form: an entry of a dual solution. (Ben-Tal, El Ghaoui,
/// Nemirovski, Robust Optimization, chapter 1.)
#[derive(Clone, Copy, Debug)]
pub struct Cover<N> {
    /// The form's number, from 0.
    pub form: u32,
    /// The set row's number, from 0.
    pub set_row: u32,
    pub amount: N,
}

/// A multiple of a form, which is taken at `base` times a scenario, or, with base 0, at a ray of the set.
#[derive(Debug, Drop)]
pub struct Item<N> {
    /// The form's number, from 0.
    pub form: u32,
    pub weight: N,
    pub base: N,
    /// `base` times the scenario, or the ray: a number for each parameter.
    pub vector: List<N>,
}

/// A certificate. A part that its status does not use is empty, 0, or 1 for the scale.
#[derive(Debug, Drop)]
pub struct Cert<N> {
    pub status: Status,
    /// The optimum, or the bound of an unbounded model's plan.
    pub value: N,
    /// The positive number that the covers are taken with.
    pub scale: N,
    /// An admitted scenario: the set isn't empty.
    pub inside: Scenario<N>,
    /// A number for each decision column.
    pub plan: List<N>,
    /// An improving direction: a number for each decision column.
    pub step: List<N>,
    /// How far the bound moves along it.
    pub step_bound: N,
    /// What covers each form at the plan, by form and then set row.
    pub covers: List<Cover<N>>,
    /// What covers each form along the direction, in the same order.
    pub holds: List<Cover<N>>,
    /// A sum of forms that no plan escapes, by form.
    pub items: List<Item<N>>,
}
