//! Whole numbers of any size, linear forms over the values of nested ranges, and a search of bounded effort for values
//! at which a form reaches a bound.
#![tactic(auto)]

mod digits;
pub mod form;
pub mod nest;
mod products;
pub mod reach;
pub mod run;
pub mod search;
pub mod short;
pub mod small;
pub mod span;
pub mod values;
pub mod whole;

pub use form::{Ends, Form};
pub use nest::Nest;
pub use search::Purse;
pub use values::Values;
pub use whole::Whole;
