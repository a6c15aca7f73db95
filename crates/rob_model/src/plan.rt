//! Plans and scenarios.

use rob_number::List;

/// A plan: a number for each decision column, and the bound that it is said to have.
#[derive(Debug, Drop)]
pub struct Plan<N> {
    /// The here-and-now variables in order; then for each adaptive variable its constant, and the coefficient of each
    /// parameter of its list.
    pub columns: List<N>,
    pub bound: N,
}

/// A joint scenario: a number for each joint parameter, those of the default set first, then those of each named set.
#[derive(Debug, Drop)]
pub struct Scenario<N> {
    pub values: List<N>,
}
