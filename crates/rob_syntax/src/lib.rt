//! The grammar of the model text: from the tokens of a text to the symbols of its lines, and from a line to its
//! statement.
#![tactic(auto)]

mod error;
pub mod indexed;
mod keyword;
mod symbol;
pub mod syntax;
mod version;
mod words;

pub use error::ParseErr;
pub use symbol::{Keyword, Mark, Symbol};
pub use version::{Version, body_line, read_version};
pub use words::{Words, collect_words, front_line, symbols};
