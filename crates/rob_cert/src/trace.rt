//! The rounds of the cutting-plane method.

use rob_number::{List, LpKind};

/// A round: how its master problem ended, and the cut that followed.
#[derive(Debug)]
pub struct Round {
    pub kind: LpKind,
    /// Whether the cut is one of the improving direction, and not of the plan.
    pub by_step: bool,
    /// The basic columns of the master's last dictionary, by position.
    pub basis: List<u32>,
    /// The entering column that grows without end, where the master is unbounded.
    pub column: Option<u32>,
    /// The number of the form that is cut, from 0.
    pub form: u32,
    /// The common denominator of the worst scenario, or 0 for a ray.
    pub base: i64,
    /// `base` times the scenario, or the ray, in whole numbers: one for each parameter.
    pub vector: List<i64>,
}

impl Drop for Round {
    /// Lets go of it in one call. A derived drop would stand in each function that does.
    fn drop(self) {
        let Round {
            kind: _kind,
            by_step: _by_step,
            basis: _basis,
            column: _column,
            form: _form,
            base: _base,
            vector: _vector,
        } = self;
    }
}

/// The rounds in order.
#[derive(Debug, Drop)]
pub struct Trace {
    pub rounds: List<Round>,
}
