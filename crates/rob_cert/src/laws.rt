//! What the text of a certificate says of it.

ghost use Rattle.std.specs.Prelude.{◌≡◌, ◌-◌, ◌^◌, ◌<◌, ◌≤◌, ◌⊎◌, List, ℕ, length};
ghost use Rattle.rob_meaning.specs.Certificates.{Certificate};
ghost use Rattle.rob_meaning.specs.Named.{IsNamed};
ghost use Rattle.rob_meaning.specs.RobustModel.{RobustModel};
ghost use Rattle.rob_meaning.specs.WellFormed.{IsModel};
ghost use Rattle.rob_cert.specs.Apart.{FitsLines, IsNamedInWords};
ghost use Rattle.rob_cert.specs.Causes.{HasCause};
ghost use Rattle.rob_cert.specs.Reading.{start};
ghost use Rattle.rob_cert.specs.Spelling.{naming_of};
ghost use Rattle.rob_cert.specs.Whole.{IsTextOf};
ghost use Rattle.rob_cert.specs.declared.error.CertErr.TheVariants.{Rule};

/// Laws of spelling: a text is that of exactly one certificate whose numbers fit, or breaks exactly one rule at one
/// line.
pub fn spelling_laws()
    // Each text is that of a certificate whose numbers fit, or breaks a rule. A certificate has fewer than 2^32 items,
    // so the text of that many would do neither.
    ensures some { (m : RobustModel) (limit : ℕ) (text : List ℕ) → length text < 2 ^ 32
        → ((c : Certificate) × IsTextOf m c text × FitsLines limit m c)
        ⊎ ((rule : ℕ) × (line : ℕ) × HasCause (naming_of m) limit start text 1 (Rule rule line)) }
    // A certificate has one spelling.
    ensures spelled_once { (m : RobustModel) (c : Certificate) (s t : List ℕ) → IsTextOf m c s
        → IsTextOf m c t → s ≡ t }
    // Where no name has a space or a line's end, the text of a certificate whose numbers fit breaks no rule.
    ensures breaks_none { (m : RobustModel) (limit : ℕ) (c : Certificate) (text : List ℕ)
        → IsModel m → IsNamed m
        → IsNamedInWords m → limit ≤ 2 ^ 62 - 1 → IsTextOf m c text → FitsLines limit m c
        → (rule line : ℕ) → HasCause (naming_of m) limit start text 1 (Rule rule line) → ⊥ }
    // Such a text is that of one certificate alone.
    ensures read_once { (m : RobustModel) (limit : ℕ) (c d : Certificate) (text : List ℕ)
        → IsModel m → IsNamed m
        → IsNamedInWords m → limit ≤ 2 ^ 62 - 1 → IsTextOf m c text → IsTextOf m d text
        → FitsLines limit m c → FitsLines limit m d → c ≡ d }
    // A text breaks one rule, at one line.
    ensures one_cause { (m : RobustModel) (limit : ℕ) (text : List ℕ) → IsModel m → IsNamed m
        → IsNamedInWords m
        → limit ≤ 2 ^ 62 - 1 → (rule line other number : ℕ)
        → HasCause (naming_of m) limit start text 1 (Rule rule line)
        → HasCause (naming_of m) limit start text 1 (Rule other number) → (rule ≡ other)
        × (line ≡ number) }
{}
