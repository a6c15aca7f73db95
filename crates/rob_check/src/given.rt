//! What is checked, and against what.

use rob_cert::Cert;
use rob_elab::Forms;
use rob_model::Model;
use rob_sets::SetForm;

/// A model, its forms and its set rows in whole numbers, and a certificate that claims something of it.
#[derive(Clone, Copy)]
pub struct Given<'a, N> {
    pub model: &'a Model<N>,
    /// The matrices of the model's objective, its rows and the bounds of its variables.
    pub forms: &'a Forms,
    /// The rows of its uncertainty sets.
    pub set: &'a SetForm,
    pub cert: &'a Cert<N>,
}
