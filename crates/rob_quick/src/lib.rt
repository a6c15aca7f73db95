//! Exact numbers with a path of their own for whole numbers: two of them are added, subtracted and multiplied with no
//! search for a common divisor.
#![tactic(auto)]

pub mod quick;

pub use quick::Quick;
