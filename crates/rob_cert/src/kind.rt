//! Kinds of lines of a certificate's text, and their first words.

ghost use Rattle.std.specs.Prelude.{◌≡◌};
ghost use Rattle.rob_cert.specs.FirstLines.{bound_kind};
ghost use Rattle.rob_cert.specs.Kinds.{entries, is_used, multipliers, word_of};
ghost use Rattle.rob_cert.specs.Spelling.{multipliers_word, status_word, vector_word};
ghost use Rattle.rob_cert.specs.View.{status_of};

use crate::certificate::Status;

/// A list of numbers that is told entry by entry, each by its name.
#[derive(Clone, Copy, Debug, PartialEq, Eq)]
pub enum Vector {
    /// The admitted scenario.
    Inside,
    /// The plan.
    Plan,
    /// The direction, and its bound behind it.
    Move,
    /// The vector of an item.
    At,
}

/// A list of covers.
#[derive(Clone, Copy, Debug, PartialEq, Eq)]
pub enum Multipliers {
    /// Those of the plan.
    Covers,
    /// Those of the direction.
    Holds,
}

/// The two numbers of a plan's certificate.
#[derive(Clone, Copy, Debug, PartialEq, Eq)]
pub enum Bound {
    Value,
    Scale,
}

impl Bound {
    /// The first word of its line.
    pub fn word(self) -> &'static [u8]
        ensures word { result.now ≡ word_of (bound_kind self) }
    {
        match self {
            Bound::Value => b"value",
            Bound::Scale => b"scale",
        }
    }
}

impl Vector {
    /// Whether certificates of the status have its lines.
    pub fn is_used(self, status: Status) -> bool
        ensures used { result ≡ is_used (status_of status) (entries self) }
    {
        match self {
            Vector::Inside => true,
            Vector::Plan => status != Status::Infeasible,
            Vector::Move => status == Status::Unbounded,
            Vector::At => status != Status::Unbounded,
        }
    }

    /// The first word of its lines.
    pub fn word(self) -> &'static [u8]
        ensures word { result.now ≡ vector_word self }
    {
        match self {
            Vector::Inside => b"inside",
            Vector::Plan => b"plan",
            Vector::Move => b"move",
            Vector::At => b"at",
        }
    }
}

impl Multipliers {
    /// Whether certificates of the status have its lines.
    pub fn is_used(self, status: Status) -> bool
        ensures used { result ≡ is_used (status_of status) (multipliers self) }
    {
        match self {
            Multipliers::Covers => status != Status::Infeasible,
            Multipliers::Holds => status == Status::Unbounded,
        }
    }

    /// The first word of its lines.
    pub fn word(self) -> &'static [u8]
        ensures word { result.now ≡ multipliers_word self }
    {
        match self {
            Multipliers::Covers => b"cover",
            Multipliers::Holds => b"hold",
        }
    }
}

impl Status {
    /// The word for it.
    pub fn word(self) -> &'static [u8]
        ensures word { result.now ≡ status_word (status_of self) }
    {
        match self {
            Status::Optimal => b"optimal",
            Status::Infeasible => b"infeasible",
            Status::Unbounded => b"unbounded",
        }
    }
}
