//! Command lines.

use crate::{Route, Verb, Width};

/// A command line: a command, its own words, and its options.
#[derive(Debug)]
pub struct CommandLine {
    pub verb: Verb,
    /// One for each of `verb.own()`, in that order.
    pub own: Vec<String>,
    /// `Dual` where the command line names none, and at a command that takes none.
    pub route: Route,
    /// 62 bits where the command line names none.
    pub width: Width,
}

impl Drop for CommandLine {
    /// Lets go of it in one call. A derived drop would stand in each function that does.
    fn drop(self) {
        let CommandLine {
            verb: _verb,
            own: _own,
            route: _route,
            width: _width,
        } = self;
    }
}
