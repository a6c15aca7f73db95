//! What follows from the definitions, for the proofs of the layers above. The functions do nothing; their clauses are
//! the claims.

ghost use Rattle.std.specs.Prelude.{◌≡◌, ◌≢◌, ◌<◌, ◌≤◌, ◌↔◌, ℕ, All, List, [], ◌∷◌, ◌++◌, length, take, Some, None, IsSomeAnd, Result, Err, MatchResult};
ghost use Rattle.rob_number.specs.Counts.{Rose};
ghost use Rattle.rob_outside.specs.Files.{File, Finds, IsFirst, file_at, found_at, found_of, missing, too_long, whole};
ghost use Rattle.rob_outside.specs.Puts.{Put, PutAll, PutEach, PutUntil, put_of};
ghost use Rattle.rob_outside.specs.Taken.{IsPrefix, Takes, Took, TookPrefix};
ghost use Rattle.rob_outside.specs.declared.shelf.Fetched.{Fetched};
ghost use Rattle.rob_outside.specs.declared.shelf.ShelfErr.{ShelfErr};
ghost use Rattle.rob_outside.specs.declared.shelf.ShelfErr.TheVariants.{Failed, Memory};
ghost use Rattle.rob_outside.specs.declared.sink.SinkErr.{SinkErr};
ghost use Rattle.rob_outside.specs.declared.sink.SinkErr.TheVariants.{Failed as PutFailed, Memory as PutMemory};

/// What a fetch answers, in plain sentences.
pub fn fetch_laws()
    // The whole file, exactly where there is one of that name within the limit.
    ensures whole { (name bytes : List ℕ) (max : ℕ) (files : List File)
        → (found_at name max files ≡ whole bytes)
        ↔ ((file_at name files ≡ Some bytes) × (length bytes ≤ max)) }
    ensures missing { (name : List ℕ) (max : ℕ) (files : List File)
        → (found_at name max files ≡ missing) ↔ (file_at name files ≡ None) }
    ensures too_long { (name : List ℕ) (max : ℕ) (files : List File)
        → (found_at name max files ≡ too_long)
        ↔ IsSomeAnd (file_at name files) (λ bytes. max < length bytes) }
    // Of two files of one name the first counts, and there is none exactly where no file has the name.
    ensures first { (name bytes : List ℕ) (files : List File)
        → (file_at name files ≡ Some bytes) ↔ IsFirst name bytes files }
    ensures none { (name : List ℕ) (files : List File)
        → (file_at name files ≡ None) ↔ All (λ file. file.name ≢ name) files }
    // Without a fault, a fetch of told files answers what it has to find, or want of memory.
    ensures answered { (files : List File) (name : List ℕ) (max before now : ℕ)
        (result : Result Fetched ShelfErr)
        → Finds (Some files) name max result
        → (result ≡ Err Failed → Rose before now) → (Rose before now → ⊥)
        → MatchResult result (λ fetched. found_of fetched ≡ found_at name max files)
        (λ error. error ≡ Memory) }
{}

/// What a sink took in several puts.
pub fn put_laws()
    ensures nothing { (before : List ℕ) → Took before before [] }
    // Pieces taken one by one are their concatenation taken.
    ensures both { (before middle now first second : List ℕ)
        → Took before middle first → Took middle now second → Took before now (first ++ second) }
    // A put behind a text that was taken is a put of both together, whatever it answers.
    ensures then_put { (before middle now first second : List ℕ)
        (result : Result (Unit {0}) SinkErr)
        → Took before middle first → Takes middle now second result
        → Takes before now (first ++ second) result }
    ensures all_is_prefix { (before now text : List ℕ)
        → Took before now text → TookPrefix before now text }
    // What is a prefix of a text is one of each text that begins with it.
    ensures longer { (before now text more : List ℕ)
        → IsPrefix text more → TookPrefix before now text → TookPrefix before now more }
    ensures prefix_of_prefix { (a b c : List ℕ) → IsPrefix a b → IsPrefix b c → IsPrefix a c }
    // Without a fault, a put takes the whole piece, or answers want of memory.
    ensures answered { (before now piece : List ℕ) (faults later : ℕ)
        (result : Result (Unit {0}) SinkErr)
        → Takes before now piece result
        → (result ≡ Err PutFailed → Rose faults later) → (Rose faults later → ⊥)
        → MatchResult result (λ _. Took before now piece) (λ error. error ≡ PutMemory) }
    ensures first_bytes { (count : ℕ) (text : List ℕ) → IsPrefix (take count text) text }
{}

/// Which pieces were put, where they are put one by one until an error is answered.
pub fn each_laws()
    ensures nothing { (before : List Put) → PutAll before before [] }
    // One put.
    ensures one { (before now : List Put) (piece : List ℕ) (result : Result (Unit {0}) SinkErr)
        → now ≡ before ++ put_of piece result ∷ [] → PutEach before now (piece ∷ []) result }
    // Behind pieces that were taken whole.
    ensures behind { (before middle now : List Put) (first second : List (List ℕ))
        (result : Result (Unit {0}) SinkErr)
        → PutAll before middle first → PutEach middle now second result
        → PutEach before now (first ++ second) result }
    // In front of pieces that weren't put.
    ensures longer { (before now : List Put) (pieces more : List (List ℕ))
        → PutUntil before now pieces → PutUntil before now (pieces ++ more) }
{}
