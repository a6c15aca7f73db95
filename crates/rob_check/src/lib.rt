//! The checker of certificates: it accepts a certificate exactly where that proves what it claims and no number of the
//! check is wide. It shares no code with the solver but numbers, models, their forms and the rows of their sets.
#![tactic(auto)]

pub mod checker;
pub mod columns;
pub mod covering;
pub mod covers;
pub mod given;
pub mod items;
pub mod laws;
pub mod order;
pub mod scenario;
pub mod sums;
pub mod verdict;

pub use checker::check;
pub use verdict::Verdict;
