//! Tokens.

/// The rows of the token table.
#[derive(Clone, Copy, Debug, PartialEq, Eq)]
pub enum Kind {
    /// A name or a keyword: a letter or `_`, then letters, digits and `_`.
    Word,
    /// One or more digits.
    Digits,
    /// `+` `-` `*` `/` `(` `)` `[` `]` `,` `:` `=` `<=` `>=`.
    Sign,
    /// LF.
    LineEnd,
}

/// A token: the bytes of the source from `start` to before `end`, on a line counted from 1. A line end stands on the
/// line that it ends.
#[derive(Clone, Copy, Debug, PartialEq, Eq)]
pub struct Token {
    pub kind: Kind,
    pub start: u32,
    pub end: u32,
    pub line: u32,
}
