//! Texts: lists of bytes.

ghost use Rattle.std.specs.Prelude.{◌≡◌, ◌≤◌, [], ◌++◌, OnOk, OnErr, length, take};

use crate::memory::Memory;
use std::alloc::Global;
use std::marker::Model;

/// A text that grows at its end. Contracts see the list of its bytes; no encoding is meant.
#[derive(Debug, Drop)]
pub struct Text {
    bytes: Vec<u8>,
}

impl Model for Text {
    ghost use Rattle.std.specs.Prelude.{ℕ, List};

    ghost Value = { List ℕ };

    ghost view = { λ text. text.bytes.items };
}

impl Text {
    /// The empty text. It takes no memory.
    pub fn new(alloc: Global) -> Text
        ensures empty { result ≡ [] }
    {
        Text {
            bytes: Vec::new(alloc),
        }
    }

    /// Appends the piece.
    pub fn push(&mut self, piece: &[u8]) -> Result<(), Memory>
        ensures appended { OnOk result (self.new ≡ self.old ++ piece.now) }
        ensures unchanged { OnErr result (self.new ≡ self.old) }
    {
        self.bytes.extend_from_slice(piece)?;
        Ok(())
    }

    /// The bytes, in order.
    pub fn bytes(&self) -> &[u8]
        ensures list { result.now ≡ self.now }
    {
        self.bytes.as_slice()
    }

    /// Keeps the first `len` bytes. It takes no memory and gives none back, so a call that has appended pieces can go
    /// back to where it began.
    pub fn cut(&mut self, len: usize)
        requires within { len ≤ length self.old }
        ensures kept { self.new ≡ take len self.old }
    {
        self.bytes.truncate(len);
    }
}

impl From<Vec<u8>> for Text {
    ghost from_gives = { λ bytes text. text ≡ bytes.items };

    fn from(bytes: Vec<u8>) -> Text {
        Text { bytes }
    }
}
