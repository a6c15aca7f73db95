//! Where the program's files come from, and where its output goes.
#![tactic(auto)]

pub mod file_shelf;
pub mod laws;
pub mod mem_shelf;
pub mod mem_sink;
mod note;
pub mod shelf;
pub mod sink;
pub mod std_sink;
mod stored;
pub mod sure_shelf;
pub mod sure_sink;

pub use file_shelf::FileShelf;
pub use mem_shelf::MemShelf;
pub use mem_sink::MemSink;
pub use shelf::{Fetched, Shelf, ShelfErr};
pub use sink::{Sink, SinkErr};
pub use std_sink::StdSink;
pub use sure_shelf::SureShelf;
pub use sure_sink::SureSink;
