//! A place in the text.

ghost use Rattle.std.specs.Prelude.{◌≡◌, ◌+◌, ◌<◌, ◌≤◌, ◌^◌, length};
ghost use Rattle.rob_lex.specs.Places.{start, behind, depth_at};
ghost use Rattle.rob_lex.specs.Places as places;
ghost use Rattle.rob_lex.specs.Offences.{most_open};
ghost use Rattle.rob_lex.specs.Weights.{total};

use crate::piece::Shape;
use crate::token::Kind;
use crate::weights::Weights;

/// A place between two pieces of the text, and what was counted before it.
#[derive(Clone, Copy, Debug)]
pub struct Place {
    /// How many bytes stand before it.
    pub offset: u32,
    /// Its line, from 1.
    pub line: u32,
    /// How many tokens stand before it, line ends among them.
    pub count: u32,
    /// The parentheses that are open on its line.
    pub weights: Weights,
    /// Whether the token before it on its line is the word `sum`.
    pub behind_sum: bool,
    /// Whether its line has a token before it.
    pub begun: bool,
}

impl Place {
    /// The beginning of a text.
    pub const fn start() -> Place
        ensures place { result ≡ start }
    {
        Place {
            offset: 0,
            line: 1,
            count: 0,
            weights: Weights::none(),
            behind_sum: false,
            begun: false,
        }
    }

    /// The place behind a piece.
    pub fn behind(&self, shape: Shape, bytes: &[u8]) -> Place
        requires room { self.now.offset + length bytes.now < 2 ^ 32 }
        requires counts { (self.now.line + 1 < 2 ^ 32) × (self.now.count + 1 < 2 ^ 32) }
        requires shallow { depth_at self.now ≤ most_open }
        ensures place { result ≡ behind self.now shape bytes.now }
    {
        let mut next = *self;
        next.offset += bytes.len() as u32;
        if let Shape::Lexeme(kind) = shape {
            next.count += 1;
            next.behind_sum = kind == Kind::Word && bytes == b"sum".as_slice();
            match kind {
                Kind::LineEnd => {
                    next.line += 1;
                    next.weights = Weights::none();
                    next.begun = false;
                }
                Kind::Sign => {
                    next.weights = weights_behind(bytes, self.behind_sum, self.weights);
                    next.begun = true;
                }
                Kind::Word | Kind::Digits => {
                    next.begun = true;
                }
            }
        }
        next
    }
}

/// Which parentheses are open behind a sign.
fn weights_behind(sign: &[u8], behind_sum: bool, weights: Weights) -> Weights
    requires shallow { total weights ≤ most_open }
    ensures weights { result ≡ places.weights_behind sign.now behind_sum weights }
{
    match sign {
        [b'(', ..] => weights.opened(behind_sum),
        [b')', ..] => weights.closed(),
        _ => weights,
    }
}
