//! Laws of the definitions: each text has one model, which is well formed, well named and within the limits.

ghost use Rattle.std.specs.Prelude.{◌≡◌, ℕ, ◌≤◌, ◌⊎◌, ◌++◌, ◌∷◌, [], false, length, List, None, Option};
ghost use Rattle.rob_meaning.specs.Places.{Each};
ghost use Rattle.rob_meaning.specs.WellFormed.{IsModel};
ghost use Rattle.rob_meaning.specs.Named.{AreDistinct, IsNamed, IsPlain, declared_names};
ghost use Rattle.rob_meaning.specs.RobustModel.{RobustModel};
ghost use Rattle.rob_model.specs.Limits.{IsWithinLimits};
ghost use Rattle.rob_parse.specs.Modelled.{ReadsModel};
ghost use Rattle.rob_index.specs.Expansion.{ref_name, word_at};
ghost use Rattle.rob_index.specs.Settings.{Setting};
ghost use Rattle.rob_index.specs.Rules.{is_out_at};
ghost use Rattle.rob_index.specs.Statements.{Index, Ref};
ghost use Rattle.rob_syntax.specs.Names.{IsSpelled, IsWord};
ghost use Rattle.rob_syntax.specs.Symbols.{keyword_among, keywords, longest_name};
ghost use Rattle.rob_rules.specs.declared.sort.Sort.{Sort};
ghost use Rattle.rob_syntax.specs.declared.syntax.Statement.{Statement};
ghost use Rattle.rob_parse.specs.Models.{model_of};
ghost use Rattle.rob_rules.specs.Chains.{Chain};
ghost use Rattle.rob_rules.specs.Scopes.{Earlier, start};
ghost use Rattle.rob_rules.specs.Sizes.{AreSizesOf, counted};
ghost use Rattle.rob_rules.specs.Texts.{Breaks, Reads};

/// Each text reads as exactly one model, or breaks exactly one rule at one line.
pub fn one_model()
    ensures some { (limit : ℕ) (text : List ℕ)
        → ((m : RobustModel) × ReadsModel limit text m)
        ⊎ ((rule : ℕ) × (line : ℕ) × Breaks limit text rule line) }
    ensures model { (limit : ℕ) (text : List ℕ) (m m' : RobustModel)
        → ReadsModel limit text m → ReadsModel limit text m' → m ≡ m' }
    // A limit only bounds the digits: one text, read at two limits, is one model.
    ensures widths { (limit limit' : ℕ) (text : List ℕ) (m m' : RobustModel)
        → ReadsModel limit text m → ReadsModel limit' text m' → m ≡ m' }
    ensures not_both { (limit : ℕ) (text : List ℕ) (m : RobustModel) (rule line : ℕ)
        → ReadsModel limit text m → Breaks limit text rule line → ⊥ }
{}

/// A model that a text reads as is within the limits, and the sizes that are counted statement by statement, which rule
/// 22 judges, are those of the model of the statements up to there.
pub fn within_limits()
    ensures limits { (limit : ℕ) (text : List ℕ) (m : RobustModel) → ReadsModel limit text m
        → IsWithinLimits m }
    ensures counted { (limit : ℕ)
        (words : List (List ℕ)) (list : List Statement) (known : Earlier) (s : Statement)
        → Chain limit words (start (length words)) list known → (sorts : List (Option Sort))
        → AreSizesOf (model_of words sorts (list ++ s ∷ [])) (counted known.sizes s) }
{}

/// A model that a text reads as is well formed.
pub fn well_formed()
    ensures model { (limit : ℕ) (text : List ℕ) (m : RobustModel) → 1 ≤ limit
        → ReadsModel limit text m → IsModel m }
{}

/// The names of a model that a text reads as are plain, free and distinct.
pub fn well_named()
    ensures names { (limit : ℕ) (text : List ℕ) (m : RobustModel) → ReadsModel limit text m
        → IsNamed m }
    ensures spelled { (limit : ℕ) (text : List ℕ) (m : RobustModel) → ReadsModel limit text m
        → Each IsSpelled (declared_names m) }
{}

/// The name that a ref with indices stands for may be declared, where its word is a word and no keyword, its indices
/// are within bounds, and it isn't too long.
pub fn expanded_names()
    ensures spelled { (words : List (List ℕ)) (setting : Setting) (r : Ref)
        → IsWord (word_at words r.name) → keyword_among keywords (word_at words r.name) ≡ None
        → Each (λ (x : Index). is_out_at x setting ≡ false) r.indices
        → length (ref_name words setting r) ≤ longest_name → IsSpelled (ref_name words setting r) }
{}

/// What a text of either version reads as are statements one behind another, each as a reader makes it and without a
/// fault; and its words, with the names that came, are different words, without a dot.
pub fn text_chain()
    ensures chain { (limit : ℕ) (text : List ℕ) (words : List (List ℕ)) (list : List Statement)
        (known : Earlier)
        → Reads limit text words list known → Chain limit words (start (length words)) list known }
    ensures words { (limit : ℕ) (text : List ℕ) (words : List (List ℕ)) (list : List Statement)
        (known : Earlier)
        → Reads limit text words list known → AreDistinct words
        × (Each IsWord words × Each IsPlain words) }
{}
