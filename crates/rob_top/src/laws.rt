//! Which answer has to come; what two answers say of each other; and what a later call makes of what an earlier one
//! printed: `check`, `replay` and `worst` of a certificate, `checktree` of a tree, `solve`, `prove` and `check` of
//! the text of a split model. What is known of a call's files (`Known`) are the told files, or the answers that came
//! in the call, which every shelf gives. The functions do nothing; their clauses are the claims.

ghost use Rattle.std.specs.Prelude.{◌≡◌, ◌≤◌, ◌<◌, ◌^◌, ◌⊎◌, ◌↔◌, ◌++◌, ℕ, ℤ, List, true, codes};
ghost use Rattle.rob_algebra.specs.Fraction.{Fraction};
ghost use Rattle.rob_cert.specs.Apart.{IsNamedInWords};
ghost use Rattle.rob_elab.specs.Written.{IsWritten};
ghost use Rattle.rob_dualize.specs.Solving.{HasScenario, IsNarrowModel};
ghost use Rattle.rob_gen.specs.Generated.{generated};
ghost use Rattle.rob_meaning.specs.Certificates.{Status, infeasible, optimal, unbounded};
ghost use Rattle.rob_meaning.specs.Guarantee.{IsNoWorse};
ghost use Rattle.rob_meaning.specs.Places.{Each};
ghost use Rattle.rob_meaning.specs.Proves.{HasStatus};
ghost use Rattle.rob_meaning.specs.RobustModel.{RobustModel};
ghost use Rattle.rob_meaning.specs.UncertaintySet.{Admits, IsEmptySet};
ghost use Rattle.rob_model.specs.declared.place.Spot.{Spot};
ghost use Rattle.rob_parse.specs.Modelled.{ReadsModel};
ghost use Rattle.rob_replay.specs.Replayed.{ShowsBound};
ghost use Rattle.rob_top.specs.Branched.{IsBranched};
ghost use Rattle.rob_split_text.specs.SplitTexts.{HasFewTokens};
ghost use Rattle.rob_top.specs.Calls.{Call, Known, known_call, limit_of};
ghost use Rattle.rob_top.specs.Files.{HasFile};
ghost use Rattle.rob_report.specs.NarrowText.{narrow_line};
ghost use Rattle.rob_top.specs.Checked.{IsCertificateAccepted};
ghost use Rattle.rob_top.specs.Commands.{IsSolving};
ghost use Rattle.rob_top.specs.Compared.{AsksFor};
ghost use Rattle.rob_top.specs.ComparedEnds.{IsComparedAnswer};
ghost use Rattle.rob_top.specs.Completeness.{IsComplete, MustEnd};
ghost use Rattle.rob_top.specs.Endings.{EndsAs, IsProvedAnswer, IsShownAnswer, NamesWidth};
ghost use Rattle.rob_top.specs.Headline.{Means};
ghost use Rattle.rob_top.specs.Inputs.{HasCertificateFile, HasModel, HasModelText};
ghost use Rattle.rob_top.specs.Narrowed.{IsNarrowed};
ghost use Rattle.rob_top.specs.Replayed.{IsReplayed};
ghost use Rattle.rob_top.specs.Searched.{IsSearched, ShowsKept, certificate_vector};
ghost use Rattle.rob_top.specs.Solved.{IsEmptySet as AnswersEmptySet, IsSolved};
ghost use Rattle.rob_top.specs.TreeChecked.{HasTreeFile, IsTreeAccepted};
ghost use Rattle.rob_top.specs.Split.{EachCellAdmits, HasStatusOverPieces, IsPieced, IsSplitText};
ghost use Rattle.rob_top.specs.SplitTexts.{IsNarrowOnWay, IsPiecesAnswer, TakesSplit, written_split};
ghost use Rattle.rob_commands.specs.Replies.{ended_of};
ghost use Rattle.rob_top.specs.WorkedCalls.{first_text};
ghost use Rattle.rob_top.specs.WorkedModels.{greatest};
ghost use Rattle.rob_top.specs.WorkedCompared.{first_summary, gen_call};
ghost use Rattle.rob_commands.specs.declared.ended.Ended.{Ended};
ghost use Rattle.rob_commands.specs.declared.ended.Ended.TheVariants.{Accepted, Cert, EmptySet, Model, Printed, TooWide};
ghost use Rattle.rob_words.specs.Commands.{Line};
ghost use Rattle.rob_words.specs.Kinds.{IsNumber, number_of};
ghost use Rattle.rob_words.specs.Values.{Word};
ghost use Rattle.rob_words.specs.declared.route.Route.TheVariants.{Dual};
ghost use Rattle.rob_words.specs.declared.verb.Own.TheVariants as own;
ghost use Rattle.rob_words.specs.declared.verb.Verb.TheVariants.{Check, Prove, Tree};
ghost use Rattle.rob_write.specs.Canonical.{model_text};
ghost use Rattle.rob_words.specs.declared.verb.Verb.TheVariants as verbs;

/// How a call must end, by its words and files: `specs/Completeness.antt`.
pub fn completeness()
    // An answer that is allowed is one that must come.
    ensures complete { (call : Call) (ended : Ended) (text : List ℕ) → Means call ended text
        → IsComplete call ended }
{}

/// The text that `prove` printed, as the certificate's file of a `check` on the same model at the same width.
pub fn prove_then_check()
    // It is accepted; or a number of the check is wide, and its place is named; or the outside fails, or memory is
    // refused.
    ensures accepted { (proving checking : Call) (status : Status) (text shown : List ℕ)
        (solved : IsSolved proving status text) → solved.line.verb ≡ Prove
        → (known : Known checking.source) (line : Line) → line.width ≡ solved.line.width
        → HasCertificateFile (known_call checking known) verbs.Check line solved.m text
        → (ended : Ended)
        → Means checking ended shown → IsProvedAnswer (limit_of line) solved.m solved.c ended }
{}

/// What `narrow yes` says of `solve` and `prove`, by the robust counterpart, on the same model at the same width.
pub fn narrow_then_solve()
    // The model is narrow,
    ensures narrow { (narrowing : Call) (text front : List ℕ) (narrowed : IsNarrowed narrowing text)
        → text ≡ front ++ narrow_line true → IsNarrowModel (limit_of narrowed.line) narrowed.m }
    // so they are never refused for width;
    ensures not_refused { (narrowing solving : Call) (text front shown : List ℕ)
        (narrowed : IsNarrowed narrowing text)
        → text ≡ front ++ narrow_line true → (known : Known solving.source) (line : Line)
        → line.width ≡ narrowed.line.width → IsSolving line.verb → line.way ≡ Dual
        → HasModel (known_call solving known) line narrowed.m → (spot : Spot)
        → Means solving (TooWide spot) shown → ⊥ }
    // and where some scenario is admitted the model's status is answered, or the outside fails, or memory is refused.
    ensures status { (narrowing solving : Call) (text front shown : List ℕ)
        (narrowed : IsNarrowed narrowing text)
        → text ≡ front ++ narrow_line true → (known : Known solving.source) (line : Line)
        → line.width ≡ narrowed.line.width → IsSolving line.verb → line.way ≡ Dual
        → HasModel (known_call solving known) line narrowed.m → (ended : Ended)
        → Means solving ended shown
        → (u : List Fraction) → Admits narrowed.m u → (status : Status) × (v : Fraction)
        × HasStatus narrowed.m status v × EndsAs (ended_of status) ended }
    // Where none is, an empty set is answered, with weights that show it, or again the outside fails, or memory is
    // refused.
    ensures empty { (narrowing solving : Call) (text front shown : List ℕ)
        (narrowed : IsNarrowed narrowing text)
        → text ≡ front ++ narrow_line true → (known : Known solving.source) (line : Line)
        → line.width ≡ narrowed.line.width → IsSolving line.verb
        → HasModel (known_call solving known) line narrowed.m
        → (ended : Ended) → Means solving ended shown → IsEmptySet narrowed.m
        → IsShownAnswer narrowed.m ended }
{}

/// The plan of a certificate that `check` accepted, as `replay` takes it on the same model.
pub fn check_then_replay()
    // It has its bound; so each inside line shows no slack below 0, and an objective no worse than the value.
    ensures shown { (checking replaying : Call) (text shown : List ℕ)
        (accepted : IsCertificateAccepted checking text)
        (replayed : IsReplayed replaying shown) → replayed.m ≡ accepted.m → replayed.c ≡ accepted.c
        → Each (ShowsBound replayed.m replayed.c.value) replayed.lines }
{}

/// The plan of a certificate that `check` accepted, as `worst` takes it on the same model.
pub fn check_then_worst()
    // It has its bound; so a worst scenario is printed, whichever form is named, and no slack below 0.
    ensures kept { (checking searching : Call) (text shown : List ℕ)
        (accepted : IsCertificateAccepted checking text)
        (searched : IsSearched searching shown) → searched.m ≡ accepted.m → searched.c ≡ accepted.c
        → ShowsKept searched.m searched.form (certificate_vector searched.c) shown }
{}

/// The text that `prove` printed, as the certificate's file of a `worst` on the same model at the same width.
pub fn prove_then_worst()
    // A worst scenario is printed, whichever form is named, and no slack below 0;
    ensures kept { (proving searching : Call) (status : Status) (text shown : List ℕ)
        (solved : IsSolved proving status text) → solved.line.verb ≡ Prove
        → (known : Known searching.source) (line : Line) → line.width ≡ solved.line.width
        → HasCertificateFile (known_call searching known) verbs.Worst line solved.m text
        → (searched : IsSearched searching shown)
        → ShowsKept solved.m searched.form (certificate_vector solved.c) shown }
    // and the text is refused for one reason alone: the model is infeasible, so that there is no plan.
    ensures refused { (proving searching : Call) (status : Status) (text shown : List ℕ)
        (solved : IsSolved proving status text) → solved.line.verb ≡ Prove
        → (known : Known searching.source) (line : Line) → line.width ≡ solved.line.width
        → HasCertificateFile (known_call searching known) verbs.Worst line solved.m text
        → (rule number : ℕ)
        → Means searching (Cert rule number) shown → (rule ≡ 34)
        × ((number ≡ 1) × (status ≡ infeasible)) }
{}

/// The text that `prove` printed, as the certificate's file of a `replay` on the same model at the same width.
pub fn prove_then_replay()
    // Each inside line of a table shows no slack below 0, and an objective no worse than the value that was proved;
    ensures shown { (proving replaying : Call) (status : Status) (text shown : List ℕ)
        (solved : IsSolved proving status text) → solved.line.verb ≡ Prove
        → (known : Known replaying.source) (line : Line) → line.width ≡ solved.line.width
        → HasCertificateFile (known_call replaying known) verbs.Replay line solved.m text
        → (replayed : IsReplayed replaying shown)
        → Each (ShowsBound solved.m solved.c.value) replayed.lines }
    // and the text is refused for one reason alone: the model is infeasible, so that there is no plan.
    ensures refused { (proving replaying : Call) (status : Status) (text shown : List ℕ)
        (solved : IsSolved proving status text) → solved.line.verb ≡ Prove
        → (known : Known replaying.source) (line : Line) → line.width ≡ solved.line.width
        → HasCertificateFile (known_call replaying known) verbs.Replay line solved.m text
        → (rule number : ℕ)
        → Means replaying (Cert rule number) shown → (rule ≡ 34)
        × ((number ≡ 1) × (status ≡ infeasible)) }
{}

/// The text that `tree` printed, as the tree's file of a `checktree` on the same model and the same names in the same
/// order, at the same width.
pub fn tree_then_checktree()
    // It is accepted; or a number of the check is wide, and its place is named; or the outside fails, or memory is
    // refused.
    ensures accepted { (growing checking : Call) (status : Status) (text shown : List ℕ)
        (branched : IsBranched growing status text) → branched.line.verb ≡ Tree
        → (known : Known checking.source) (line : Line) → line.width ≡ branched.line.width
        → HasTreeFile (known_call checking known) line branched.m branched.names text
        → (ended : Ended) → Means checking ended shown → EndsAs Accepted ended
        ⊎ NamesWidth (limit_of line) branched.m branched.names branched.t ended }
    // And whichever tree is accepted there claims the status that `whole` and `tree` answer, and the value of an
    // optimum.
    ensures one_status { (growing checking : Call) (status : Status) (text shown : List ℕ)
        (branched : IsBranched growing status text) (accepted : IsTreeAccepted checking shown)
        → accepted.m ≡ branched.m → accepted.names ≡ branched.names → (accepted.t.status ≡ status)
        × (status ≡ optimal → accepted.t.value ≡ branched.t.value) }
{}

/// What `text` prints for a number.
pub fn generated_texts()
    // It is read as the number's model, at each width.
    ensures read { (n limit : ℕ) → 14 ≤ limit → limit < 2 ^ 62
        → ReadsModel limit (model_text (generated n)) (generated n) }
    // For 0 it is these lines.
    ensures first { model_text (generated 0) ≡ first_text }
{}

/// The models that `gen` solves by both routes.
pub fn compared_models()
    // Some joint scenario is admitted,
    ensures admitted { (n : ℕ) → HasScenario (generated n) }
    // and no number of the set rows and forms is wide, at each width.
    ensures written { (n limit : ℕ) → 255 ≤ limit → IsWritten limit (generated n) }
    // Each number is answered: with a status that its model has, or a wide number on the way of a route, or a put or
    // memory is refused.
    ensures answered { (word : Word) → IsNumber word → (result : Ended)
        → MustEnd (gen_call word) result
        → IsComparedAnswer greatest (generated (number_of word)) result }
    // Where both routes have a status, calls on one number print one text, at whichever widths;
    ensures one_summary { (a b : Call) (l k : Line) (n : ℕ) (text other : List ℕ) → AsksFor a l n
        → AsksFor b k n
        → Means a Printed text → Means b Printed other → text ≡ other }
    // for 0 it is these lines.
    ensures first { (text : List ℕ) → Means (gen_call (codes "0")) Printed text → text
        ≡ first_summary }
{}

/// The text that `celltext` printed, as the model's file of a later call at the same width, where it has no more tokens
/// than a text may have, 20,000 with its line ends, and no more bytes than a model's file, 65,536. The split model's
/// names, counts and size ask nothing more: where one of these is over its limit `celltext` names rule 53 or 54, and
/// prints no text.
pub fn celltext_then_solve()
    // It is read as the split model where it has no more tokens than that, and only there;
    ensures read { (printing : Call) (text : List ℕ) (split : IsSplitText printing text)
        → HasFewTokens (written_split split)
        ↔ ReadsModel (limit_of split.line) text (written_split split) }
    // so a call that takes it has read the split model,
    ensures model { (printing : Call) (text : List ℕ) (split : IsSplitText printing text)
        (later : Call)
        (known : Known later.source) (line : Line) → TakesSplit split (known_call later known) line
        → HasModel (known_call later known) line (written_split split) }
    // and no other,
    ensures one_model { (printing : Call) (text : List ℕ) (split : IsSplitText printing text)
        (later : Call)
        (known : Known later.source) (line : Line) → TakesSplit split (known_call later known) line
        → (l : Line) (m : RobustModel) → HasModel later l m → m ≡ written_split split }
    // and names no rule that the text breaks.
    ensures unbroken { (printing : Call) (text : List ℕ) (split : IsSplitText printing text)
        (later : Call)
        (known : Known later.source) (line : Line) → TakesSplit split (known_call later known) line
        → (rule number : ℕ) (shown : List ℕ) → Means later (Model rule number) shown → ⊥ }
    // A status that `solve` or `prove` shows of it is the first model's over pieces, an optimum with the same value;
    ensures status { (printing : Call) (text : List ℕ) (split : IsSplitText printing text)
        (solving : Call)
        (known : Known solving.source) (line : Line)
        → TakesSplit split (known_call solving known) line
        → (status : Status) (shown : List ℕ) (solved : IsSolved solving status shown)
        → HasStatusOverPieces split.m split.cuts status solved.c.value }
    // else they answer an empty set, where not each cell holds an admitted scenario, or a wide number of the split
    // model, or the outside fails, or memory is refused;
    ensures answer { (printing : Call) (text : List ℕ) (split : IsSplitText printing text)
        (solving : Call)
        (known : Known solving.source) (line : Line)
        → TakesSplit split (known_call solving known) line
        → IsSolving line.verb → (ended : Ended) (shown : List ℕ) → Means solving ended shown
        → IsPiecesAnswer line.way (limit_of line) split.m split.cuts ended }
    // and where each cell holds one, and no number is wide, that status is answered, or again the outside fails, or
    // memory is refused.
    ensures answered { (printing : Call) (text : List ℕ) (split : IsSplitText printing text)
        (solving : Call)
        (known : Known solving.source) (line : Line)
        → TakesSplit split (known_call solving known) line
        → IsSolving line.verb → EachCellAdmits split.m split.cuts
        → IsNarrowOnWay line.way (limit_of line) (written_split split)
        → (ended : Ended) (shown : List ℕ) → Means solving ended shown
        → (status : Status) × (v : Fraction) × HasStatusOverPieces split.m split.cuts status v
        × EndsAs (ended_of status) ended }
    // The certificate that `prove` printed of it is accepted by a `check` that takes it too, or a number of the check
    // is wide, and its place is named, or the outside fails, or memory is refused.
    ensures accepted { (printing : Call) (text : List ℕ) (split : IsSplitText printing text)
        (proving : Call)
        (known : Known proving.source) (line : Line)
        → TakesSplit split (known_call proving known) line
        → (checking : Call) (again : Known checking.source) (other : Line)
        → TakesSplit split (known_call checking again) other
        → (status : Status) (certificate : List ℕ) (solved : IsSolved proving status certificate)
        → solved.line.verb ≡ Prove → other.verb ≡ Check
        → HasFile (known_call checking again) other own.Certificate certificate
        → (ended : Ended) (shown : List ℕ) → Means checking ended shown
        → IsProvedAnswer (limit_of other) (written_split split) solved.c ended }
{}

/// Names of a model that was read stand as words in the text of a certificate or of a branch tree.
pub fn read_names()
    // No declared name has a space or a line's end.
    ensures words { (limit : ℕ) (text : List ℕ) (m : RobustModel) → ReadsModel limit text m
        → IsNamedInWords m }
{}

/// A model has one status.
pub fn status_laws()
    // No two of `optimal`, `infeasible` and `unbounded` are allowed,
    ensures one_status { (call : Call) (known : Known call.source) (a b : Status)
        (text other : List ℕ)
        → Means call (ended_of a) text → Means call (ended_of b) other → a ≡ b }
    // and none of them where no scenario is admitted.
    ensures not_empty { (call : Call) (known : Known call.source) (status : Status)
        (weights : List ℤ)
        (text other : List ℕ) → Means call (ended_of status) text
        → Means call (EmptySet weights) other → ⊥ }
{}

/// Two calls of `solve` and `prove` on one model, by whichever routes and at whichever widths.
pub fn route_laws()
    // They have one status, and of an optimum one value;
    ensures one_answer { (a b : Call) (s t : Status) (text other : List ℕ) (x : IsSolved a s text)
        (y : IsSolved b t other) → x.m ≡ y.m → (s ≡ t) × (s ≡ optimal → x.c.value ≡ y.c.value) }
    // and where the one has a status, the other doesn't answer an empty set.
    ensures one_emptiness { (a b : Call) (s : Status) (weights : List ℤ) (text other : List ℕ)
        (x : IsSolved a s text)
        (y : AnswersEmptySet b weights other) → x.m ≡ y.m → ⊥ }
    // So two of them whose model's files have the same bytes have one status, and of an optimum one value,
    ensures same_bytes { (a b : Call) (known : Known a.source) (again : Known b.source)
        (line other : Line)
        (bytes : List ℕ) → HasModelText (known_call a known) line bytes
        → HasModelText (known_call b again) other bytes
        → IsSolving line.verb → IsSolving other.verb → (s t : Status) (text shown : List ℕ)
        → Means a (ended_of s) text → Means b (ended_of t) shown
        → (x : IsSolved a s text) × (y : IsSolved b t shown) × (s ≡ t)
        × (s ≡ optimal → x.c.value ≡ y.c.value) }
    // and not the one a status and the other an empty set.
    ensures same_emptiness { (a b : Call) (known : Known a.source) (again : Known b.source)
        (line other : Line)
        (bytes : List ℕ) → HasModelText (known_call a known) line bytes
        → HasModelText (known_call b again) other bytes
        → IsSolving line.verb → IsSolving other.verb
        → (s : Status) (weights : List ℤ) (text shown : List ℕ)
        → Means a (ended_of s) text → Means b (EmptySet weights) shown → ⊥ }
{}

/// A call of `cells` and one of `solve` or `prove` on the same model, by whichever route and at whichever widths.
pub fn cells_laws()
    // Of two optima the one over pieces is no worse.
    ensures no_worse { (cutting solving : Call) (text other : List ℕ)
        (pieced : IsPieced cutting optimal text)
        (solved : IsSolved solving optimal other) → pieced.m ≡ solved.m
        → IsNoWorse pieced.m.sense pieced.c.value solved.c.value }
    // Where the model is infeasible over pieces it is so over plans;
    ensures infeasible_too { (cutting solving : Call) (status : Status) (text other : List ℕ)
        (pieced : IsPieced cutting infeasible text) (solved : IsSolved solving status other)
        → pieced.m ≡ solved.m → status ≡ infeasible }
    // where it is unbounded over plans it is so over pieces;
    ensures unbounded_too { (cutting solving : Call) (status : Status) (text other : List ℕ)
        (pieced : IsPieced cutting status text) (solved : IsSolved solving unbounded other)
        → pieced.m ≡ solved.m → status ≡ unbounded }
    // and where it has a status over pieces, `solve` and `prove` don't answer an empty set.
    ensures one_emptiness { (cutting solving : Call) (status : Status) (weights : List ℤ)
        (text other : List ℕ)
        (pieced : IsPieced cutting status text) (empty : AnswersEmptySet solving weights other)
        → pieced.m ≡ empty.m → ⊥ }
{}
