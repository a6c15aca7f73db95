//! The statements of a model text, with every rule that a text may break.
#![tactic(auto)]

mod degree;
mod error;
mod fault;
mod indices;
pub mod laws;
mod leaf;
mod lines;
mod scope;
mod size;
mod sort;

pub use degree::sort_at;
pub use error::ModelErr;
pub use fault::Fault;
pub use lines::{Statements, read_text};
pub use scope::Scope;
pub use size::Sizes;
pub use sort::Sort;
