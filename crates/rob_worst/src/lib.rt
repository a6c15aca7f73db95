//! The worst scenario of a form: its greatest value over the uncertainty set at a plan, with a scenario that has it and
//! amounts that show it; or a ray of the set along which it has none.
#![tactic(auto)]

mod cost;
pub mod finder;
mod reading;
pub mod refusal;
mod searching;
mod single;
pub mod slack;
pub mod sums;
mod task;
pub mod vector;

pub use finder::Finder;
pub use single::{worst, worst_step};
