//! The parentheses that are open on a line, and as how many each counts.

ghost use Rattle.std.specs.Prelude.{◌≡◌, ◌<◌, ◌≤◌, ◌∷◌, [], drop};
ghost use Rattle.rob_index.specs.Depths as depths;
ghost use Rattle.rob_lex.specs.Weights.{total};

use std::marker::Model;

/// The parentheses that are open on a line. A contract sees as how many each counts, the innermost first.
#[derive(Clone, Copy, Debug)]
pub struct Weights {
    /// How many are open.
    parens: u32,
    /// As how many they count together.
    depth: u32,
    /// Bit i is set where the i-th counts as two, the innermost being the 0th.
    doubled: u64,
}

impl Model for Weights {
    ghost use Rattle.std.specs.Prelude.{◌≡◌, ℕ, List, length};
    ghost use Rattle.std.proofs.Common.{sym};
    ghost use Rattle.rob_lex.specs.Weights.{total, weights_of, doubled_of, length-weights_of};

    ghost Value = { List ℕ };

    ghost view = { λ a. weights_of a.parens a.doubled };

    ghost invariant = { λ a. (a.depth ≡ total (weights_of a.parens a.doubled))
        × (a.doubled ≡ doubled_of (weights_of a.parens a.doubled)) };

    ghost inverse = { λ ws. record { parens = length ws; depth = total ws; doubled = doubled_of ws } };

    ghost inverse_ok = { λ a h i. record {
      parens = length-weights_of a.parens a.doubled i;
      depth = (sym h.0) i;
      doubled = (sym h.1) i;
    } };
}

impl Weights {
    /// No parenthesis is open.
    pub const fn none() -> Weights
        ensures weights { result ≡ [] }
    {
        Weights {
            parens: 0,
            depth: 0,
            doubled: 0,
        }
    }

    /// One more is open, inside the others; directly behind `sum` it counts as two.
    pub fn opened(self, behind_sum: bool) -> Weights
        requires room { total self < 63 }
        ensures weights { result ≡ depths.weight behind_sum ∷ self }
    {
        let weight = weight(behind_sum);
        Weights {
            parens: self.parens + 1,
            depth: self.depth + weight,
            doubled: self.doubled * 2 + (weight as u64 - 1),
        }
    }

    /// The innermost is closed, where one is open.
    pub fn closed(self) -> Weights
        ensures weights { result ≡ drop 1 self }
    {
        if self.parens == 0 {
            return self;
        }
        let weight = 1 + (self.doubled % 2) as u32;
        Weights {
            parens: self.parens - 1,
            depth: self.depth - weight,
            doubled: self.doubled / 2,
        }
    }

    /// As how many they count together.
    pub fn depth(self) -> u32
        ensures depth { result ≡ total self }
    {
        self.depth
    }
}

/// As how many an opening parenthesis counts, directly behind `sum` or not.
pub fn weight(behind_sum: bool) -> u32
    ensures weight { result ≡ depths.weight behind_sum }
    ensures few { result ≤ 2 }
{
    if behind_sum { 2 } else { 1 }
}
