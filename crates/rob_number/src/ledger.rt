//! The count of operations, and of results that were refused because they are wide.

ghost use Rattle.std.specs.Prelude.{◌≡◌, ℕ};
ghost use Rattle.rob_number.specs.Counts.{raised};

/// Two counts that never fall: of the operations on exact numbers, and of the results found wide. A count that has
/// reached `u64::MAX` stands there.
pub trait Ledger {
    /// The number of operations so far.
    ghost ops: { Self → ℕ };

    /// The number of wide results so far.
    ghost wides: { Self → ℕ };

    /// Counts an operation.
    fn op(&mut self)
        ensures counted { ops self.new ≡ raised (ops self.old) }
        ensures unchanged { wides self.new ≡ wides self.old };

    /// Counts a wide result.
    fn wide(&mut self)
        ensures counted { wides self.new ≡ raised (wides self.old) }
        ensures unchanged { ops self.new ≡ ops self.old };
}

/// The program's ledger: two counts in memory.
#[derive(Debug, PartialEq, Eq, Drop)]
pub struct Tally {
    ops: u64,
    wides: u64,
}

impl Tally {
    /// A ledger that has counted nothing.
    pub fn new() -> Tally
        ensures ops { ⟦<Tally as Ledger>⟧.ops result ≡ 0 }
        ensures wides { ⟦<Tally as Ledger>⟧.wides result ≡ 0 }
    {
        Tally { ops: 0, wides: 0 }
    }

    /// The number of operations so far.
    pub fn ops(&self) -> u64
        ensures count { result ≡ ⟦<Tally as Ledger>⟧.ops self.now }
    {
        self.ops
    }

    /// The number of wide results so far.
    pub fn wides(&self) -> u64
        ensures count { result ≡ ⟦<Tally as Ledger>⟧.wides self.now }
    {
        self.wides
    }
}

impl Ledger for Tally {
    ghost ops = { λ tally. tally.ops };

    ghost wides = { λ tally. tally.wides };

    fn op(&mut self) {
        self.ops = self.ops.saturating_add(1);
    }

    fn wide(&mut self) {
        self.wides = self.wides.saturating_add(1);
    }
}
