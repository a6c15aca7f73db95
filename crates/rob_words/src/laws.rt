//! What follows from what a command line is. The functions do nothing; their clauses are the claims.

ghost use Rattle.std.specs.Prelude.{◌≡◌, ◌≢◌, All, List, []};
ghost use Rattle.rob_words.specs.Commands.{IsCommandLine, IsSpelled, Line};
ghost use Rattle.rob_words.specs.Values.{Word};

/// Words spell at most one command line, and none of its words is empty.
pub fn command_lines()
    ensures one { (words : List Word) (a b : Line) → IsSpelled words a → IsSpelled words b → a ≡ b }
    ensures bytes { (words : List Word) → IsCommandLine words → All (λ word. word ≢ []) words }
{}
