//! A run so far: its rounds, and the master over their cuts.

use rob_cert::Round;
use rob_number::List;
use rob_rows::Lp;

/// The rounds, and the master over their cuts.
#[derive(Debug, Drop)]
pub struct Run {
    pub master: Lp,
    pub rounds: List<Round>,
}
