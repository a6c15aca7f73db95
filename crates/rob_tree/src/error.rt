//! Why there is no tree.

ghost use Rattle.std.specs.Prelude.{◌≡◌};
ghost use Rattle.rob_tree.specs.Reading.{rule_of};
ghost use Rattle.rob_tree.specs.declared.error.TreeErr.TheVariants as Unread;
ghost use Rattle.rob_tree.specs.declared.error.TreeStop.TheVariants as Ungrown;

use crate::tree::Branch;
use rob_model::Spot;
use rob_number::{List, Memory};
use thiserror::Error;

/// What is wrong with a line outside the certificates.
#[derive(Clone, Copy, Debug, PartialEq, Eq)]
pub enum Offence {
    /// It is not of a kind that may stand there, it has another number of words, or its end is missing.
    NoLine,
    /// A name is not that of a named variable, or a number is no leaf's.
    NoName,
    /// A number is not spelled as numbers are, does not fit, is not whole where it must be, or is the limit.
    NoNumber,
}

impl Offence {
    /// The number of the rule that it breaks.
    pub fn rule(self) -> u8
        ensures rule { result ≡ rule_of self }
    {
        match self {
            Offence::NoLine => 71,
            Offence::NoName => 72,
            Offence::NoNumber => 73,
        }
    }
}

/// Why a text is no tree.
#[derive(Debug, Drop, Error)]
pub enum TreeErr {
    /// The number of the broken rule, and its line, counted from 1.
    #[error("line {1} of the tree breaks rule {0}")]
    Rule(u8, u32),
    /// Memory was refused.
    #[error("out of memory")]
    Memory,
}

/// Why no tree grows.
#[derive(Debug, Drop)]
pub enum TreeStop {
    /// The names break that rule.
    Rule(u8),
    /// No joint scenario is admitted: weights of the set rows that show it, by Farkas's lemma.
    EmptySet(List<i64>),
    /// A number is wide for the box behind that path.
    Wide(List<Branch>, Spot),
    /// Memory was refused.
    Memory,
}

impl From<Memory> for TreeErr {
    ghost from_gives = { λ _ e. e ≡ Unread.Memory };

    fn from(_memory: Memory) -> TreeErr {
        TreeErr::Memory
    }
}

impl From<Memory> for TreeStop {
    ghost from_gives = { λ _ e. e ≡ Ungrown.Memory };

    fn from(_memory: Memory) -> TreeStop {
        TreeStop::Memory
    }
}
