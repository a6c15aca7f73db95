//! The command lines that the program takes, read from their words.
#![tactic(auto)]

mod admission;
mod cuts;
mod error;
mod grammar;
pub mod laws;
mod limits;
mod line;
mod names;
mod own_words;
mod reader;
mod route;
mod verb;
mod width;

pub use cuts::{CutWord, MOST_CUTS, cut};
pub use error::WordsErr;
pub use limits::limit;
pub use line::CommandLine;
pub use names::{MOST_IN_LIST, first_part};
pub use own_words::{number, statement};
pub use reader::read_words;
pub use route::Route;
pub use verb::{Own, Verb};
pub use width::Width;
