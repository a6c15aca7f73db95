//! How a search for the worst scenario of a form ends, and why a route ends without a certificate.

ghost use Rattle.std.specs.Prelude.{◌≡◌};
ghost use Rattle.rob_cert.specs.declared.ending.Stop.TheVariants as Stopped;

use crate::trace::Trace;
use rob_model::{Scenario, Spot};
use rob_number::{List, Memory};

/// The worst scenario of a form at a plan, or a ray along which it has none. (The pessimisation problem of robust
/// optimisation.)
#[derive(Debug, Drop)]
pub enum Worst<N> {
    /// The greatest value is attained.
    At {
        /// The least common denominator of the plan and its bound: `peak` and `constant` are `scale` times the form's
        /// parts.
        scale: N,
        /// The greatest value of the parameter part over the set.
        peak: N,
        /// The constant part.
        constant: i64,
        /// A scenario that attains the peak.
        scenario: Scenario<N>,
        /// The basic columns of the search's last dictionary, by position.
        basis: List<u32>,
        /// Dual values of the set rows, which cover the peak.
        amounts: List<N>,
    },
    /// There is no greatest value.
    Along {
        /// A ray of the set along which the form grows: a number for each parameter.
        ray: List<N>,
        /// The basic columns of the search's last dictionary, by position.
        basis: List<u32>,
        /// The entering column that grows without end.
        column: u32,
    },
}

/// Why a route has no certificate.
#[derive(Debug, Drop)]
pub enum Stop {
    /// No joint scenario is admitted: weights of the set rows that show it, by Farkas's lemma.
    EmptySet(List<i64>),
    /// A number is wide: its place, and the rounds before it.
    Wide(Spot, Trace),
    /// Memory was refused.
    Memory,
}

impl From<Memory> for Stop {
    ghost from_gives = { λ _ stop. stop ≡ Stopped.Memory };

    fn from(_memory: Memory) -> Stop {
        Stop::Memory
    }
}
