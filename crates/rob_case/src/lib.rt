//! Cases of calls: lines that give something to calls, call them, and say what is wanted.
#![tactic(auto)]

mod bytes;
mod case;
mod given;
mod judging;
pub mod laws;
pub mod numbers;
mod running;
pub mod text;
mod trouble;
mod word;

pub use case::Case;
pub use given::give;
pub use judging::{Verdict, judge};
pub use running::{Calls, run};
pub use trouble::Trouble;
