//! What is so of all scenario files.

ghost use Rattle.std.specs.Prelude.{◌≡◌, ◌≢◌, ◌↔◌, IsPermutation, List, Some, [], ℕ};
ghost use Rattle.rob_meaning.specs.Named.{AreDistinct};
ghost use Rattle.rob_meaning.specs.Names.{Name};
ghost use Rattle.rob_replay.specs.Files.{IsFile};
ghost use Rattle.rob_replay.specs.Headers.{header_places};

/// Each text is one list of records.
pub fn file_laws()
    ensures some { (text : List ℕ) → (rows : List (List (List ℕ))) × IsFile text rows }
    ensures one { (text : List ℕ) (rows others : List (List (List ℕ)))
        → IsFile text rows → IsFile text others → rows ≡ others }
{}

/// What the first record has to be.
pub fn header_laws()
    // Where names differ, a record is a header for them exactly where it is these names in some order, and there is
    // one.
    ensures header { (header names : List Name) → AreDistinct names
        → ((places : List ℕ) × (header_places header names ≡ Some places))
        ↔ ((names ≢ []) × IsPermutation names header) }
{}
