//! The forms of a model in whole numbers.

use rob_model::Sense;
use rob_number::List;

/// The robust constraints of a model, each an expression that is at most 0 in every joint scenario, times its least
/// common denominator. Form 0 is the objective's, with `tau` for its bound; the rows follow, and the declared bounds of
/// variables and adaptive variables. (Ben-Tal, El Ghaoui, Nemirovski, Robust Optimization, chapter 1.)
#[derive(Debug)]
pub struct Forms {
    /// The number of decision columns.
    pub columns: u32,
    /// The number of joint parameters.
    pub params: u32,
    /// Whether `tau` is to be small or large.
    pub sense: Sense,
    /// Form, then the constant and the joint parameters, then the constant, the decision columns and `tau`.
    pub matrices: List<List<List<i64>>>,
}

impl Drop for Forms {
    /// Lets go of it in one call. A derived drop would stand in each function that does.
    fn drop(self) {
        let Forms {
            columns: _columns,
            params: _params,
            sense: _sense,
            matrices: _matrices,
        } = self;
    }
}
