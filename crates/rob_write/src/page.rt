//! A page on which a canonical text is written, word by word. It keeps whether a space comes next.

ghost use Rattle.std.specs.Prelude.{◌≡◌, ◌++◌, OnOk};
ghost use Rattle.rob_write.specs.Pages.{put, name, digits, keyword, sign, negative, line_end, gap};
ghost use Rattle.rob_write.specs.Pages as spec;

use itoa::Buffer;
use rob_number::{Memory, Text};
use rob_syntax::{Keyword, Mark};
use std::alloc::Global;

/// What the next word stands behind.
#[derive(Clone, Copy)]
pub enum Edge {
    /// The beginning of a line, or a sign behind which no space stands.
    Tight,
    /// A name.
    Named,
    /// Anything else.
    Apart,
}

/// The bytes that are written, and what stands at their end.
#[derive(Drop)]
pub struct Page {
    pub text: Text,
    pub edge: Edge,
}

impl Page {
    /// A page with nothing on it.
    pub fn blank(alloc: Global) -> Page
        ensures blank { result ≡ spec.blank }
    {
        let text = Text::new(alloc);
        let edge = Edge::Tight;
        Page { text, edge }
    }

    /// Writes a name.
    pub fn name(&mut self, bytes: &[u8]) -> Result<(), Memory>
        ensures written { OnOk result (self.new ≡ put self.old (name bytes.now)) }
    {
        let close = is_tight(self.edge);
        self.piece(close, bytes)?;
        self.edge = Edge::Named;
        Ok(())
    }

    /// Writes the digits of a number.
    pub fn digits(&mut self, value: u64) -> Result<(), Memory>
        ensures written { OnOk result (self.new ≡ put self.old (digits value)) }
    {
        let mut buffer = Buffer::new();
        let close = is_tight(self.edge);
        self.piece(close, buffer.format(value).as_bytes())?;
        self.edge = Edge::Apart;
        Ok(())
    }

    /// Writes a keyword.
    pub fn keyword(&mut self, word: Keyword) -> Result<(), Memory>
        ensures written { OnOk result (self.new ≡ put self.old (keyword word)) }
    {
        let close = is_tight(self.edge);
        self.piece(close, keyword_text(word))?;
        self.edge = Edge::Apart;
        Ok(())
    }

    /// Writes a sign.
    pub fn sign(&mut self, mark: Mark) -> Result<(), Memory>
        ensures written { OnOk result (self.new ≡ put self.old (sign mark)) }
    {
        let close = mark_is_close(self.edge, mark);
        self.piece(close, mark_text(mark))?;
        self.edge = edge_of_mark(mark);
        Ok(())
    }

    /// Writes the `-` in front of a number or of an expression.
    pub fn negative(&mut self) -> Result<(), Memory>
        ensures written { OnOk result (self.new ≡ put self.old negative) }
    {
        let close = is_tight(self.edge);
        self.piece(close, b"-")?;
        self.edge = Edge::Tight;
        Ok(())
    }

    /// Ends the line.
    pub fn line_end(&mut self) -> Result<(), Memory>
        ensures written { OnOk result (self.new ≡ put self.old line_end) }
    {
        self.piece(true, b"\n")?;
        self.edge = Edge::Tight;
        Ok(())
    }

    /// Writes some bytes, behind a space where they don't stand close.
    fn piece(&mut self, close: bool, bytes: &[u8]) -> Result<(), Memory>
        ensures written { OnOk result (self.new.text ≡ self.old.text ++ (gap close ++ bytes.now)) }
    {
        if !close {
            self.text.push(b" ")?;
        }
        self.text.push(bytes)
    }
}

/// Whether no space stands behind.
fn is_tight(edge: Edge) -> bool
    ensures holds { result ≡ spec.is_tight edge }
{
    match edge {
        Edge::Tight => true,
        Edge::Named | Edge::Apart => false,
    }
}

/// Whether a sign stands directly behind.
fn mark_is_close(edge: Edge, mark: Mark) -> bool
    ensures holds { result ≡ spec.mark_is_close edge mark }
{
    match (edge, mark) {
        (Edge::Tight, _) => true,
        (Edge::Named, Mark::Open) => true,
        (Edge::Named, _) => leans_back(mark),
        (Edge::Apart, _) => leans_back(mark),
    }
}

/// Whether no space stands in front of a sign.
fn leans_back(mark: Mark) -> bool
    ensures holds { result ≡ spec.leans_back mark }
{
    match mark {
        Mark::Star | Mark::Slash | Mark::Close | Mark::CloseBracket | Mark::Comma | Mark::Colon =>
            true,
        Mark::Plus
        | Mark::Minus
        | Mark::Open
        | Mark::OpenBracket
        | Mark::Equal
        | Mark::AtMost
        | Mark::AtLeast => false,
    }
}

/// What stands behind a sign.
fn edge_of_mark(mark: Mark) -> Edge
    ensures edge { result ≡ spec.edge_of_mark mark }
{
    match mark {
        Mark::Star | Mark::Slash | Mark::Open | Mark::OpenBracket => Edge::Tight,
        Mark::Plus
        | Mark::Minus
        | Mark::Close
        | Mark::CloseBracket
        | Mark::Comma
        | Mark::Colon
        | Mark::Equal
        | Mark::AtMost
        | Mark::AtLeast => Edge::Apart,
    }
}

/// The bytes of a keyword.
fn keyword_text(word: Keyword) -> &'static [u8]
    ensures text { result.now ≡ spec.keyword_text word }
{
    match word {
        Keyword::Uncertain => b"uncertain",
        Keyword::Set => b"set",
        Keyword::Budget => b"budget",
        Keyword::Var => b"var",
        Keyword::Adaptive => b"adaptive",
        Keyword::Minimise => b"minimise",
        Keyword::Maximise => b"maximise",
        Keyword::Row => b"row",
        Keyword::In => b"in",
        Keyword::At => b"at",
        Keyword::By => b"by",
        Keyword::Over => b"over",
        Keyword::Sum => b"sum",
        Keyword::For => b"for",
        Keyword::To => b"to",
        Keyword::Model => b"model",
        Keyword::Unused => b"",
    }
}

/// The bytes of a sign.
fn mark_text(mark: Mark) -> &'static [u8]
    ensures text { result.now ≡ spec.mark_text mark }
{
    match mark {
        Mark::Plus => b"+",
        Mark::Minus => b"-",
        Mark::Star => b"*",
        Mark::Slash => b"/",
        Mark::Open => b"(",
        Mark::Close => b")",
        Mark::OpenBracket => b"[",
        Mark::CloseBracket => b"]",
        Mark::Comma => b",",
        Mark::Colon => b":",
        Mark::Equal => b"=",
        Mark::AtMost => b"<=",
        Mark::AtLeast => b">=",
    }
}
