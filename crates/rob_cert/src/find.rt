//! The numbers of names. Lines stand in order, so a name is sought from where the line before was.

ghost use Rattle.std.specs.Prelude.{◌≡◌, ◌∷◌, ◌++◌, [], ◌<◌, ◌≤◌, ℕ, codes, length, MatchOption, IsTrue, ◌↔◌};
ghost use Rattle.rob_cert.specs.NamesView.{naming};
ghost use Rattle.rob_cert.specs.Spelling.{entry_names, name_at};

use crate::kind::Vector;
use crate::names::Names;
use rob_number::Text;

/// The first number from `least` on that has the name.
pub fn find_from(names: &[Text], least: usize, name: &[u8]) -> Option<usize>
    ensures found { MatchOption result
        ((k : ℕ) → least ≤ k → k < length names.now → name_at names.now k ≡ name.now → ⊥)
        (λ k. (least ≤ k) × (k < length names.now) × (name_at names.now k ≡ name.now)) }
{
    for k in least..names.len() {
        if names[k].bytes() == name {
            return Some(k);
        }
    }
    None
}

/// The same among the entries of a vector.
pub fn find_entry(names: &Names, vector: Vector, least: usize, name: &[u8]) -> Option<usize>
    ensures found { MatchOption result
        ((k : ℕ) → least ≤ k → k < length (entry_names (naming names.now) vector)
        → name_at (entry_names (naming names.now) vector) k ≡ name.now → ⊥)
        (λ k. (least ≤ k) × (k < length (entry_names (naming names.now) vector))
        × (name_at (entry_names (naming names.now) vector) k ≡ name.now)) }
{
    match vector {
        Vector::Inside => find_from(names.parameters.items(), least, name),
        Vector::Plan => find_from(names.columns.items(), least, name),
        Vector::Move => find_moved(names.columns.items(), least, name),
        Vector::At => find_from(names.parameters.items(), least, name),
    }
}

/// The same among the columns and tau behind them.
fn find_moved(columns: &[Text], least: usize, name: &[u8]) -> Option<usize>
    ensures found { MatchOption result
        ((k : ℕ) → least ≤ k → k < length (columns.now ++ codes "tau" ∷ [])
        → name_at (columns.now ++ codes "tau" ∷ []) k ≡ name.now → ⊥)
        (λ k. (least ≤ k) × (k < length (columns.now ++ codes "tau" ∷ []))
        × (name_at (columns.now ++ codes "tau" ∷ []) k ≡ name.now)) }
{
    match find_from(columns, least, name) {
        Some(k) => Some(k),
        None => {
            if least <= columns.len() && is_tau(name) {
                Some(columns.len())
            } else {
                None
            }
        }
    }
}

/// Whether a name is that of the direction's bound.
fn is_tau(name: &[u8]) -> bool
    ensures tau { IsTrue result ↔ (name.now ≡ codes "tau") }
{
    name == b"tau".as_slice()
}
