//! Scenario files: the values of a plan in each scenario of a file.
#![tactic(auto)]

pub mod error;
mod field;
mod header;
pub mod laws;
mod line;
mod record;
pub mod replaying;
mod rows;
pub mod table;

pub use error::ReplayErr;
pub use replaying::replay;
pub use table::{Table, TableLine};
