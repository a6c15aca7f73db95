//! The answer of a call, as it grows. Whoever writes it appends to it, and has no text of its own to let go of.

use rob_case::Trouble;
use rob_case::numbers::{put_all, shown as shown_number};
use rob_case::text::shown;
use rob_number::{Exact, Text};
use std::alloc::Global;
use std::fmt::Debug;

/// An answer so far.
#[derive(Drop)]
pub(crate) struct Answer {
    pub(crate) alloc: Global,
    pub(crate) text: String,
}

impl Answer {
    /// An answer with nothing in it.
    pub(crate) fn new(alloc: Global) -> Answer {
        Answer {
            alloc,
            text: String::new(alloc),
        }
    }

    /// Appends words.
    pub(crate) fn say(&mut self, words: &str) -> Result<(), Trouble> {
        Ok(self.text.push_str(words)?)
    }

    /// Appends words, and a value behind them as it is told.
    pub(crate) fn tell<T: Debug>(&mut self, words: &str, value: &T) -> Result<(), Trouble> {
        Ok(write!(self.text, "{words}{value:?}")?)
    }

    /// Appends words, and a number behind them.
    pub(crate) fn number<N: Exact>(&mut self, words: &str, number: N) -> Result<(), Trouble> {
        let number = shown_number(self.alloc, number)?;
        Ok(write!(self.text, "{words}{number}")?)
    }

    /// Appends words, and numbers behind them, each behind a space.
    pub(crate) fn list<N: Exact>(&mut self, words: &str, numbers: &[N]) -> Result<(), Trouble> {
        self.say(words)?;
        put_all(self.alloc, &mut self.text, numbers)
    }

    /// Appends words, and whole numbers behind them, each behind a space.
    pub(crate) fn wholes(&mut self, words: &str, numbers: &[i64]) -> Result<(), Trouble> {
        self.say(words)?;
        for number in numbers {
            self.tell(" ", number)?;
        }
        Ok(())
    }

    /// Appends a text, as bytes are shown.
    pub(crate) fn show(&mut self, text: Text) -> Result<(), Trouble> {
        let text = shown(self.alloc, text.bytes())?;
        self.say(text.as_str())
    }
}
