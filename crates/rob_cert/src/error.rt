//! Why a text is no certificate.

ghost use Rattle.std.specs.Prelude.{◌≡◌};
ghost use Rattle.rob_cert.specs.Causes.{rule_of};
ghost use Rattle.rob_cert.specs.declared.error.CertErr.TheVariants.{Memory as OutOfMemory};

use rob_number::Memory;
use thiserror::Error;

/// What is wrong with a line.
#[derive(Clone, Copy, Debug, PartialEq, Eq)]
pub enum Offence {
    /// It is not of a kind that may stand there, it has another number of words, or its end is missing.
    NoLine,
    /// A name is not of its kind, it breaks the order of its kind, or a number is 0 that must not be.
    NoShape,
    /// A number is not spelled as numbers are, or does not fit.
    NoNumber,
}

impl Offence {
    /// The number of the rule that it breaks.
    pub fn rule(self) -> u8
        ensures rule { result ≡ rule_of self }
    {
        match self {
            Offence::NoLine => 31,
            Offence::NoShape => 32,
            Offence::NoNumber => 33,
        }
    }
}

/// Why a text is no certificate.
#[derive(Debug, Drop, Error)]
pub enum CertErr {
    /// The number of the broken rule, and its line, counted from 1.
    #[error("line {1} of the certificate breaks rule {0}")]
    Rule(u8, u32),
    /// Memory was refused.
    #[error("out of memory")]
    Memory,
}

impl From<Memory> for CertErr {
    ghost from_gives = { λ _ e. e ≡ OutOfMemory };

    fn from(_memory: Memory) -> CertErr {
        CertErr::Memory
    }
}
