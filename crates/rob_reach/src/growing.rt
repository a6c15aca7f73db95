//! Branch and bound.

ghost use Rattle.rob_algebra.specs.Fraction.{Fraction};
ghost use Rattle.rob_meaning.specs.Certificates.{Certificate};
ghost use Rattle.rob_meaning.specs.Places.{at};
ghost use Rattle.rob_meaning.specs.RobustModel.{RobustModel};
ghost use Rattle.rob_meaning.specs.WellFormed.{IsModel};
ghost use Rattle.rob_reach.specs.Boxes.{Branch, behind, box_above, box_below};
ghost use Rattle.rob_reach.specs.Growing.{AllowsBranch, ComesToBox, Decides, IsAllowedPath, IsGrown, Search, Solves, branches, first_broken};
ghost use Rattle.rob_reach.specs.Ranges.{KeepsBothBounds, product_of_ranges, whole_rule};
ghost use Rattle.rob_reach.specs.Trees.{BranchesOn, IsIn, ProvesTree, Tree, branch_count, leaf_count};
ghost use Rattle.rob_reach.specs.Verdicts.{IsTree};
ghost use Rattle.rob_reach.specs.WholeNumbers.{IsWhole};
ghost use Rattle.rob_reach.specs.WholeStatus.{HasWholeStatus, IsWholeOn};
ghost use Rattle.std.specs.Prelude.{◌≡◌, ◌+◌, ◌<◌, ◌≤◌, ℕ, ℤ, List, None, Some, length};

/// Which box is branched, and where.
pub fn branching_laws()
    // A search branches on the first named variable whose number isn't whole, at that number's
    // floor, where the certificate is optimal or unbounded.
    ensures first { (m : RobustModel) (names : List ℕ) (s : Search) (c : Certificate) (j : ℕ)
        (k : ℤ) → Decides m names s c (branches j k) → first_broken names c.plan ≡ Some j }
    ensures allowed { (m : RobustModel) (names : List ℕ) (s : Search) (c : Certificate) (j : ℕ)
        (k : ℤ) → Decides m names s c (branches j k) → AllowsBranch m names c j k }
    ensures broken { (names : List ℕ) (plan : List Fraction) (j : ℕ)
        → first_broken names plan ≡ Some j → IsIn j names × (IsWhole (at plan j) → ⊥) }
    ensures whole { (names : List ℕ) (plan : List Fraction)
        → first_broken names plan ≡ None → IsWholeOn names plan }
{}

/// How the measure of a search falls, from a box to one behind it.
pub fn measure_laws()
    // The measures of the two boxes sum to at most that of the branched one, so they fall.
    ensures splits { (m : RobustModel) (names : List ℕ) (c : Certificate) (j : ℕ) (k : ℤ)
        → IsModel m → KeepsBothBounds m names → AllowsBranch m names c j k
        → product_of_ranges (box_below m j k).variables names
        + product_of_ranges (box_above m j k).variables names
        ≤ product_of_ranges m.variables names }
    ensures falls { (m : RobustModel) (names : List ℕ) (c : Certificate) (j : ℕ) (k : ℤ) → IsModel m
        → KeepsBothBounds m names → AllowsBranch m names c j k
        → (product_of_ranges (box_below m j k).variables names
        < product_of_ranges m.variables names)
        × (product_of_ranges (box_above m j k).variables names
        < product_of_ranges m.variables names) }
    // A path of such branches is shorter than the measure.
    ensures path { (m : RobustModel) (names : List ℕ) (path : List Branch) → IsModel m
        → KeepsBothBounds m names → IsAllowedPath m names path
        → length path < product_of_ranges m.variables names }
    // What a search comes to is behind such a path.
    ensures comes { (m : RobustModel) (names : List ℕ) (before there : Search) (path : List Branch)
        → ComesToBox m names before path there → IsAllowedPath m names path }
    // A box stays bounded.
    ensures bounded { (m : RobustModel) (names : List ℕ) (b : Branch)
        → KeepsBothBounds m names → KeepsBothBounds (behind m b) names }
    ensures positive { (m : RobustModel) (names : List ℕ)
        → 1 ≤ product_of_ranges m.variables names }
{}

/// What a tree that has grown is.
pub fn growing_laws()
    // It proves, and branches on named variables alone.
    ensures proves { (m : RobustModel) (names : List ℕ) (t : Tree) → IsGrown m names t
        → ProvesTree m names t × BranchesOn names t.root }
    // So its status is true.
    ensures true_of { (m : RobustModel) (names : List ℕ) (t : Tree) → IsModel m
        → KeepsBothBounds m names → IsGrown m names t → HasWholeStatus m names t.status t.value }
    // It has at most as many leaves as the product of the ranges.
    ensures leaves { (m : RobustModel) (names : List ℕ) (t : Tree) → IsModel m
        → KeepsBothBounds m names → IsGrown m names t
        → leaf_count t.root ≤ product_of_ranges m.variables names }
    // Where no rule is broken, it has at most 1,000 leaves and fewer than 1,000 branches,
    ensures small { (m : RobustModel) (names : List ℕ) (t : Tree) → IsModel m
        → whole_rule m names ≡ None → IsGrown m names t
        → (leaf_count t.root ≤ 1000) × (branch_count t.root < 1000) }
    // and it keeps what a tree's text keeps.
    ensures kept { (m : RobustModel) (names : List ℕ) (t : Tree) → IsModel m
        → whole_rule m names ≡ None → IsGrown m names t → IsTree names t }
    // Growing ends: where each box has a certificate that proves, a tree grows.
    ensures ends { (m : RobustModel) (names : List ℕ) → IsModel m → KeepsBothBounds m names
        → Solves m → (t : Tree) × IsGrown m names t }
{}
