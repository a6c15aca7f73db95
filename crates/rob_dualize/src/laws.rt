//! What the calls' conditions ask of a model.

ghost use Rattle.std.specs.Prelude.{◌≡◌, ◌^◌, ◌-◌, ◌∷◌, [], ℕ, pos};
ghost use Rattle.rob_algebra.specs.Fraction.{of_int};
ghost use Rattle.rob_bounds.specs.Bounds.{IsNarrow};
ghost use Rattle.rob_linear.specs.Programs.{Program};
ghost use Rattle.rob_linear.specs.Vectors.{Columns};
ghost use Rattle.rob_linear.specs.WideRows.{HasWideRow};
ghost use Rattle.rob_counterpart.specs.Counterpart.{counterpart, set_program};
ghost use Rattle.rob_counterpart.specs.SamePrograms.{AreSame};
ghost use Rattle.rob_meaning.specs.Certificates.{optimal};
ghost use Rattle.rob_meaning.specs.Proves.{HasStatus};
ghost use Rattle.rob_meaning.specs.RobustModel.{RobustModel};
ghost use Rattle.rob_meaning.specs.UncertaintySet.{Admits};
ghost use Rattle.rob_meaning.specs.WellFormed.{IsModel};
ghost use Rattle.rob_model.specs.Limits.{IsWithinLimits};
ghost use Rattle.rob_model.specs.declared.place.Spot.{Spot};
ghost use Rattle.rob_sets.specs.SetForm.{IsSetForm};
ghost use Rattle.rob_sets.specs.declared.set_form.SetForm.{SetForm};
ghost use Rattle.rob_elab.specs.Forms.{IsForms};
ghost use Rattle.rob_elab.specs.declared.forms.Forms.{Forms};
ghost use Rattle.rob_dualize.specs.SmallestModel.{one_demand};
ghost use Rattle.rob_dualize.specs.Solving.{IsNarrowModel, IsWideOnPath};
ghost use Rattle.rob_dualize.specs.Wholes.{counterpart_of, IsFew};

/// Models within the limits can be solved. It does nothing, and its clause is the claim.
pub fn size_laws()
    // The rows and columns of the counterpart are as few as a solver takes.
    ensures few { (m : RobustModel) (forms : Forms) (set : SetForm) → IsWithinLimits m
        → IsForms m forms → IsSetForm m set → IsFew (counterpart_of forms set) }
{}

/// Programs with the same numbers are narrow alike. It does nothing, and its clause is the claim.
pub fn narrow_laws()
    ensures same { (limit : ℕ) (P Q : Program) → AreSame P Q → IsNarrow limit P → IsNarrow limit Q }
{}

/// What is told of the forms and the set rows of a model is its counterpart. It does nothing, and its clause is the
/// claim.
pub fn counterpart_laws()
    ensures told { (m : RobustModel) (forms : Forms) (set : SetForm) → IsForms m forms
        → IsSetForm m set → counterpart_of forms set ≡ counterpart m }
{}

/// A model that no row can refuse, so what is said of models without a wide row is said of one. It does nothing, and
/// its clauses are the claim.
pub fn smallest_model()
    // It is a model, some scenario is admitted, and 12 is its optimum.
    ensures model { IsModel one_demand }
    ensures admitted { Admits one_demand (of_int (pos 8) ∷ []) }
    ensures status { HasStatus one_demand optimal (of_int (pos 12)) }
    // Its numbers are so small that no row on the path of either program is wide with 62 bits,
    ensures narrow { IsNarrowModel (2 ^ 62 - 1) one_demand }
    ensures set_rows { (basis : Columns) (i : ℕ)
        → ¬ (HasWideRow (2 ^ 62 - 1) (set_program one_demand) basis i) }
    ensures counterpart_rows { (basis : Columns) (i : ℕ)
        → ¬ (HasWideRow (2 ^ 62 - 1) (counterpart one_demand) basis i) }
    // so none is named.
    ensures not_wide { (spot : Spot) → ¬ (IsWideOnPath (2 ^ 62 - 1) one_demand spot) }
{}
