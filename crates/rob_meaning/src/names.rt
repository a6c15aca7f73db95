//! The names of a model's parts.

ghost use Rattle.rob_meaning.specs.Forms.{forms};
ghost use Rattle.rob_meaning.specs.Named.{AreDistinct, IsNamed, parameter_names};
ghost use Rattle.rob_meaning.specs.Names.{column_names, column_names_with_tau, form_names, set_column_names, set_condition_names, set_row_names};
ghost use Rattle.rob_meaning.specs.RobustModel.{RobustModel, column_count};
ghost use Rattle.rob_meaning.specs.SetConditions.{set_conditions};
ghost use Rattle.rob_meaning.specs.SetRows.{set_column_count, set_rows};
ghost use Rattle.rob_meaning.specs.WellFormed.{IsModel};
ghost use Rattle.std.specs.Prelude.{◌≡◌, suc, length};

/// Each list of names is as long as what it names.
pub fn name_laws()
    ensures columns { (m : RobustModel) → length (column_names m) ≡ column_count m }
    ensures columns_with_tau { (m : RobustModel)
        → length (column_names_with_tau m) ≡ suc (column_count m) }
    ensures forms { (m : RobustModel) → length (form_names m) ≡ length (forms m) }
    ensures set_rows { (m : RobustModel) → length (set_row_names m) ≡ length (set_rows m) }
    ensures set_columns { (m : RobustModel) → length (set_column_names m) ≡ set_column_count m }
    ensures set_conditions { (m : RobustModel)
        → length (set_condition_names m) ≡ length (set_conditions m) }
{}

/// In a well-formed model whose declared names are plain, free and distinct, each name names one
/// thing of its kind.
pub fn distinct_laws()
    ensures parameters { (m : RobustModel) → IsModel m → IsNamed m
        → AreDistinct (parameter_names m) }
    ensures columns { (m : RobustModel) → IsModel m → IsNamed m
        → AreDistinct (column_names_with_tau m) }
    ensures forms { (m : RobustModel) → IsModel m → IsNamed m → AreDistinct (form_names m) }
    ensures set_rows { (m : RobustModel) → IsModel m → IsNamed m → AreDistinct (set_row_names m) }
    ensures set_columns { (m : RobustModel) → IsModel m → IsNamed m
        → AreDistinct (set_column_names m) }
    ensures set_conditions { (m : RobustModel) → IsModel m → IsNamed m
        → AreDistinct (set_condition_names m) }
{}
