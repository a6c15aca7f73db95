//! The program's call: words in, bytes out. `specs/Headline.antt` says what each answer means,
//! `specs/Completeness.antt` which one has to come.
#![tactic(auto)]

mod branching;
mod checking;
mod comparing;
mod files;
mod generating;
pub mod laws;
mod limits;
pub mod machine;
mod names;
mod narrowing;
mod put;
mod replaying;
mod searching;
mod solving;
mod splitting;
mod sweeping;
mod top;
mod tree_checking;
mod work;
pub mod worked;

pub use machine::run_here;
pub use rob_commands::Ended;
pub use top::run;
