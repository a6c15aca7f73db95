//! A model in whole numbers.

use rob_elab::Forms;
use rob_sets::SetForm;

/// A model's forms and its set rows, in whole numbers.
#[derive(Clone, Copy)]
pub struct Elaborated<'a> {
    /// The matrices of its objective, its rows and the bounds of its variables.
    pub forms: &'a Forms,
    /// The rows of its uncertainty sets.
    pub set: &'a SetForm,
}
