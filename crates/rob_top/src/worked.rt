//! Calls worked by hand: `specs/WorkedCalls.antt`, `specs/WorkedTrees.antt`. So what is asked of a call where an
//! answer has to come is met by some call. A fault of the outside and want of memory may come in the place of each
//! answer; but none of a read at `text`, which names no file. The functions do nothing; their clauses are the claims.

ghost use Rattle.std.specs.Prelude.{◌≡◌, ◌⊎◌, ◌∷◌, ℕ, List, [], codes};
ghost use Rattle.rob_algebra.specs.Fraction.{Fraction};
ghost use Rattle.rob_check.specs.Narrow.{IsFirstFailing};
ghost use Rattle.rob_dualize.specs.SmallestModel.{one_demand};
ghost use Rattle.rob_dualize.specs.Models.{IsWideIn};
ghost use Rattle.rob_dualize.specs.Solving.{IsWideOnPath};
ghost use Rattle.rob_meaning.specs.Certificates.{Status};
ghost use Rattle.rob_meaning.specs.Proves.{HasStatus};
ghost use Rattle.rob_model.specs.declared.place.Place.{Place};
ghost use Rattle.rob_model.specs.declared.place.Spot.{Spot};
ghost use Rattle.rob_model.specs.declared.place.Spot.TheVariants.{Replay as ReplaySpot};
ghost use Rattle.rob_pieces.specs.SplitModel.{split_model};
ghost use Rattle.rob_top.specs.Completeness.{MustEnd};
ghost use Rattle.rob_top.specs.Endings.{EndsAs, IsEmptyAnswer, IsEmptyWholeAnswer, IsOutside, IsShownAnswer, IsSweepAnswer, IsUnput, NamesFault, NamesWideSought, NamesWidth};
ghost use Rattle.rob_top.specs.Headline.{Means};
ghost use Rattle.rob_top.specs.Routes.{IsWideOnWay};
ghost use Rattle.rob_top.specs.Searched.{IsWideSought, certificate_vector};
ghost use Rattle.rob_top.specs.Swept.{limit_value};
ghost use Rattle.rob_top.specs.Split.{IsSplitText};
ghost use Rattle.rob_top.specs.SplitEnds.{IsEmptyCellsAnswer};
ghost use Rattle.rob_top.specs.SplitTexts.{TakesSplit};
ghost use Rattle.rob_commands.specs.Replies.{ended_of};
ghost use Rattle.rob_top.specs.WorkedCalls.{cells_call, check_call, cuts_call, narrow_call, replay_call, solve_call, sweep_call, text_call, two_demands_table, whole_call, worst_call, worst_on};
ghost use Rattle.rob_top.specs.WorkedModels.{at_13, at_9, demand_within_a_budget, empty_interval, greatest, half_a_demand, hard_and_soft, impossible_demand, never_calm, no_demand, no_order, order_0, order_11, order_12, order_least, two_demands};
ghost use Rattle.rob_top.specs.WorkedTrees.{cheaper_orders, tree_call, whole_orders};
ghost use Rattle.rob_commands.specs.declared.ended.Ended.{Ended};
ghost use Rattle.rob_commands.specs.declared.ended.Ended.TheVariants.{Accepted, Cells, Cert, NoRow, Optimal, Printed, Rejected, Scenarios, Sweep, TooWide, Tree as NoTree, Whole, WideNode};
ghost use Rattle.rob_tree.specs.TreeText.{tree_text};
ghost use Rattle.rob_tree.specs.declared.tree.Branch.{Branch};
ghost use Rattle.rob_words.specs.Commands.{Line};
ghost use Rattle.rob_words.specs.Kinds.{IsNumber};
ghost use Rattle.rob_words.specs.Values.{Word};
ghost use Rattle.rob_words.specs.declared.route.Route.TheVariants.{Cuts};
ghost use Rattle.rob_write.specs.Canonical.{model_text};

/// `solve`, by both routes, and `narrow`.
pub fn solving()
    // `solve` on the smallest model is answered with `optimal`,
    ensures optimal { (result : Ended) → MustEnd (solve_call one_demand) result
        → EndsAs Optimal result }
    // by cutting planes too, or it names a wide number of a run,
    ensures by_cuts { (result : Ended) → MustEnd (cuts_call one_demand) result
        → EndsAs Optimal result
        ⊎ ((spot : Spot) × IsWideOnWay Cuts greatest one_demand spot × (result ≡ TooWide spot)) }
    // by the default route no wide number is named, as the model is narrow, and its status is answered;
    ensures narrow_spot { (result : Ended) → MustEnd (solve_call one_demand) result → (spot : Spot)
        → (result ≡ TooWide spot) → ⊥ }
    ensures narrow_status { (result : Ended) → MustEnd (solve_call one_demand) result
        → (status : Status) × (v : Fraction) × HasStatus one_demand status v
        × EndsAs (ended_of status) result }
    // on a model without a scenario by weights that show it, or a wide row of the set's program,
    ensures empty { (result : Ended) → MustEnd (solve_call empty_interval) result
        → IsEmptyAnswer greatest empty_interval result }
    // and, as that model is narrow too, by no wide row,
    ensures narrow_empty { (result : Ended) → MustEnd (solve_call empty_interval) result
        → IsShownAnswer empty_interval result }
    // nor by cutting planes.
    ensures empty_by_cuts { (result : Ended) → MustEnd (cuts_call empty_interval) result
        → IsShownAnswer empty_interval result }
    // A model with a named set is read from its text, rows over that set among them: it is answered with `optimal`,
    // or a wide row,
    ensures named_set { (result : Ended) → MustEnd (solve_call hard_and_soft) result
        → EndsAs Optimal result
        ⊎ ((spot : Spot) × IsWideOnPath greatest hard_and_soft spot × (result ≡ TooWide spot)) }
    // and where the named set admits no scenario by weights that show it, or a wide row of the sets' program.
    ensures empty_named_set { (result : Ended) → MustEnd (solve_call never_calm) result
        → IsEmptyAnswer greatest never_calm result }
    // `narrow` prints the bounds of the smallest model.
    ensures narrow { (result : Ended) → MustEnd (narrow_call one_demand) result
        → EndsAs Printed result }
{}

/// `check`, and `replay` of what it would accept.
pub fn checking()
    // `check` accepts a certificate that proves,
    ensures accepted { (result : Ended) → MustEnd (check_call order_12) result
        → EndsAs Accepted result }
    // and rejects one that doesn't, at the first place that fails.
    ensures rejected { (result : Ended) → MustEnd (check_call order_11) result
        → (place : Place) × IsFirstFailing greatest one_demand order_11 place
        × EndsAs (Rejected place) result }
    // `replay` prints the table of a file with one scenario that is admitted and one that isn't,
    ensures replayed { (result : Ended) → MustEnd (replay_call order_12 two_demands) result
        → EndsAs Printed result }
    // which has these lines, and no other,
    ensures table { (text : List ℕ) → Means (replay_call order_12 two_demands) Printed text → text
        ≡ two_demands_table }
    // and it names the first record with a wide number;
    ensures wide { (result : Ended) → MustEnd (replay_call order_least two_demands) result
        → EndsAs (TooWide (ReplaySpot 2)) result }
    // of a certificate without a plan it names rule 34,
    ensures planless { (result : Ended) → MustEnd (replay_call no_order two_demands) result
        → EndsAs (Cert 34 1) result }
    // and of a file whose header names no parameter the rule.
    ensures unread { (result : Ended) → MustEnd (replay_call order_12 no_demand) result
        → EndsAs (Scenarios 41 1) result }
{}

/// `worst`.
pub fn searching()
    // `worst` prints the worst case of a row, or names a wide number on the way to it;
    ensures worst_case { (result : Ended) → MustEnd (worst_call order_12 (codes "r")) result
        → EndsAs Printed result
        ⊎ ((spot : Spot) × IsWideSought greatest one_demand 1 (certificate_vector order_12) spot
        × (result ≡ TooWide spot)) }
    // it names a word that is no form's name, and of a certificate without a plan rule 34.
    ensures formless { (result : Ended) → MustEnd (worst_call order_12 (codes "q")) result
        → EndsAs NoRow result }
    ensures unplanned { (result : Ended) → MustEnd (worst_call no_order (codes "r")) result
        → EndsAs (Cert 34 1) result }
    // Where no number on the way is wide, as for the objective of that plan, it prints it.
    ensures printed { (result : Ended) → MustEnd (worst_call order_12 (codes "objective")) result
        → EndsAs Printed result }
    // Of a plan with the least number it names a wide number for the objective, whose slack is wide.
    ensures wide_slack { (result : Ended) → MustEnd
        (worst_call order_least (codes "objective")) result
        → NamesWideSought greatest one_demand 0 (certificate_vector order_least) result }
    // On a model without a scenario it answers by weights that show it, or a wide row of the set's program.
    ensures empty_worst { (result : Ended) → MustEnd
        (worst_on empty_interval order_0 (codes "objective")) result
        → IsEmptyAnswer greatest empty_interval result }
{}

/// `whole` and `checktree`.
pub fn branching()
    // `whole` names rule 62 for a variable without bounds, and 61 for a name of no variable.
    ensures boundless { (result : Ended) → MustEnd (whole_call one_demand (codes "x")) result
        → EndsAs (Whole 62) result }
    ensures nameless { (result : Ended) → MustEnd (whole_call one_demand (codes "y")) result
        → EndsAs (Whole 61) result }
    // On a model whose optimum in fractions isn't whole it is answered with `optimal`, or a wide number of a box.
    ensures halves { (result : Ended) → MustEnd (whole_call half_a_demand (codes "x")) result
        → EndsAs Optimal result
        ⊎ ((path : List Branch) × (spot : Spot) × (result ≡ WideNode path spot)) }
    // Where that model admits no scenario, by weights that show it, or a wide number of the set's program.
    ensures empty_whole { (result : Ended) → MustEnd
        (whole_call impossible_demand (codes "x")) result
        → IsEmptyWholeAnswer greatest impossible_demand result }
    // `checktree` names rule 71 of a tree's file that is empty;
    ensures treeless { (result : Ended) → MustEnd (tree_call half_a_demand []) result
        → EndsAs (NoTree 71 1) result }
    // it accepts a tree that proves, or names a wide number;
    ensures proved_tree { (result : Ended) → MustEnd (tree_call half_a_demand
        (tree_text half_a_demand whole_orders)) result → EndsAs Accepted result
        ⊎ NamesWidth greatest half_a_demand (0 ∷ []) whole_orders result }
    // and of one that doesn't prove it names a condition that fails, or a wide number.
    ensures unproved_tree { (result : Ended) → MustEnd (tree_call half_a_demand
        (tree_text half_a_demand cheaper_orders)) result → NamesFault greatest half_a_demand
        (0 ∷ []) cheaper_orders result
        ⊎ (NamesWidth greatest half_a_demand (0 ∷ []) cheaper_orders result ⊎ IsOutside result) }
{}

/// `sweep` and `sweeptext`.
pub fn sweeping()
    // `sweep` and `sweeptext` name rule 81 for a model without statements on its set.
    ensures unswept { (result : Ended) → MustEnd (sweep_call (codes "sweep") one_demand) result
        → EndsAs (Sweep 81) result }
    ensures unlimited { (result : Ended) → MustEnd
        (sweep_call (codes "sweeptext") one_demand) result
        → EndsAs (Sweep 81) result }
    // On a model with a budget `sweep` prints its answer at a limit, or names a wide number, and `sweeptext` prints
    // it with that limit.
    ensures swept { (result : Ended) → MustEnd
        (sweep_call (codes "sweep") demand_within_a_budget) result
        → IsSweepAnswer greatest demand_within_a_budget 1 (limit_value (codes "0") ∷ []) result }
    ensures limited { (result : Ended) → MustEnd
        (sweep_call (codes "sweeptext") demand_within_a_budget) result
        → EndsAs Printed result }
{}

/// `cells` and `celltext`.
pub fn cutting()
    // `cells` on the smallest model cut at 9 is answered with `optimal`, or a wide number of the split model, which
    // `celltext` prints;
    ensures pieces { (result : Ended) → MustEnd
        (cells_call (codes "cells") (codes "d=9") one_demand) result
        → EndsAs Optimal result
        ⊎ ((spot : Spot) × IsWideIn greatest (split_model one_demand at_9) spot
        × (result ≡ TooWide spot)) }
    ensures split { (result : Ended) → MustEnd
        (cells_call (codes "celltext") (codes "d=9") one_demand) result
        → EndsAs Printed result }
    // cut at 13, above each admitted d, by weights that show an empty cell, or a number that is wide before that is
    // known.
    ensures empty_cell { (result : Ended) → MustEnd
        (cells_call (codes "cells") (codes "d=13") one_demand) result
        → IsEmptyCellsAnswer greatest one_demand at_13 result }
    // Of a cut at no parameter rule 52 is named, and of a model with a named set 51.
    ensures uncut { (result : Ended) → MustEnd
        (cells_call (codes "cells") (codes "e=9") one_demand) result
        → EndsAs (Cells 52) result }
    ensures set_uncut { (result : Ended) → MustEnd
        (cells_call (codes "cells") (codes "d=9") hard_and_soft) result
        → EndsAs (Cells 51) result }
{}

/// The text that `celltext` prints of the smallest model cut at 9, worked by hand. So that a call takes such a text,
/// which `laws::celltext_then_solve` asks, is met by some.
pub fn split_text()
    // A call of `solve` takes it.
    ensures taken { (split : IsSplitText (cells_call (codes "celltext") (codes "d=9") one_demand)
        (model_text (split_model one_demand at_9)))
        × ((line : Line) × TakesSplit split (solve_call (split_model one_demand at_9)) line) }
{}

/// `text`.
pub fn numbers()
    // `text` prints a model, whichever number its word spells.
    ensures generated { (word : Word) → IsNumber word → (result : Ended)
        → MustEnd (text_call word) result
        → (result ≡ Printed) ⊎ IsUnput result }
{}
