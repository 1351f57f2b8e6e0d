//! Laws of the replies of commands, of their answers, the limit of length included, and of reports.

ghost use Rattle.std.specs.Prelude.{◌≡◌, ◌↔◌, ◌≤◌, ℕ, Bool, false, List, length, String};
ghost use Rattle.std.specs.declared.alloc.Global.{Global};
ghost use Rattle.gj_top.specs.declared.reply.End.{End};
ghost use Rattle.gj_top.specs.declared.reply.End.TheVariants as end;
ghost use Rattle.gj_top.specs.declared.status.Status.{Status};
ghost use Rattle.gj_top.specs.declared.status.Status.TheVariants.{Done};
ghost use Rattle.gj_shape.specs.FunctionData.{FunctionData, IsContinuous};
ghost use Rattle.gj_limit_averages.specs.Averages.{IsExtremeFunction};
ghost use Rattle.gj_top.specs.Continuity.{Jumps};
ghost use Rattle.gj_top.specs.LimitExtreme.{extreme_with_jumps};
ghost use Rattle.gj_shape.specs.Table.{IsMinimal};
ghost use Rattle.gj_shape.specs.TwoSlopes.{HasTwoSlopes};
ghost use Rattle.gj_function_text.specs.FunctionText.{IsWholeFunctionText};
ghost use Rattle.gj_proof.specs.declared.claim.Claim.{Claim};
ghost use Rattle.gj_proof.specs.ProofText.{IsBounded, IsProofText};
ghost use Rattle.gj_json.specs.JsonText.{IsReport};
ghost use Rattle.gj_top.specs.InputRead.{input_limit};
ghost use Rattle.gj_words.specs.declared.requests.Request.{Request};
ghost use Rattle.gj_top.specs.Task.{IsReply};
ghost use Rattle.gj_top.specs.Forms.{SpellsFunction};
ghost use Rattle.gj_top.specs.Command.{IsNamed, task_for};
ghost use Rattle.gj_top.specs.Show.{show};
ghost use Rattle.gj_top.specs.Check.{check};
ghost use Rattle.gj_top.specs.Derive.{derive};
ghost use Rattle.gj_top.specs.Written.{IsWrittenProof, IsWrittenVerdict};
ghost use Rattle.gj_top.specs.Decisive.{CallsExtreme, CallsExtremeByLimits, IsExtremeByOrder4q};
ghost use Rattle.gj_top.specs.Extreme.{extreme};
ghost use Rattle.gj_top.specs.Answer.{IsAnswerTo};

/// Every proof that `minimal`, `extreme` or `cut` writes is one that `check` accepts, if its text
/// is within the limit of length of an input. What `minimal` and `extreme` write always is, with
/// `--jumps` or without.
pub fn written_proofs_are_accepted()
    ensures reply { (input text answer : List ℕ) (e : End) → IsWrittenProof input text →
        IsReply check text e answer → e ≡ end.Done }
    ensures answer { (input text answer : List ℕ) (s : Status) → IsWrittenProof input text →
        length text ≤ input_limit →
        IsAnswerTo check text s answer → s ≡ Done }
    ensures short { (input text : List ℕ) → IsWrittenVerdict input text →
        length text ≤ input_limit }
{}

/// What `derive` writes is a derivation that `check` accepts, if its text is within the limit of
/// length of an input.
pub fn derived_texts_are_accepted()
    ensures reply { (input text answer : List ℕ) (e : End) → IsReply derive input end.Done text →
        IsReply check text e answer → e ≡ end.Done }
    ensures answer { (input text answer : List ℕ) (s : Status) →
        IsReply derive input end.Done text → length text ≤ input_limit →
        IsAnswerTo check text s answer → s ≡ Done }
{}

/// What `extreme` writes calls the function extreme exactly if it is continuous and its table of
/// order 4 q is extreme; with `--json` the proof text of the report does.
pub fn extreme_exactly_if_order_4q_is()
    ensures reply { (json : Bool) (f : FunctionData) (input text : List ℕ) →
        SpellsFunction json input f →
        IsReply (extreme json) input end.Done text → CallsExtreme json f text ↔
        IsExtremeByOrder4q f }
{}

/// With `--jumps` what `extreme` writes calls a function that jumps extreme exactly if it is
/// minimal and no average of two different minimal functions; with `--json` the proof text of the
/// report does.
pub fn extreme_exactly_if_no_average()
    ensures { (json : Bool) (f : FunctionData) (input text : List ℕ) →
        SpellsFunction json input f → Jumps f →
        IsReply (extreme_with_jumps json) input end.Done text → CallsExtremeByLimits json f text ↔
        IsExtremeFunction f }
{}

/// A function that is continuous, or not minimal, is answered with `--jumps` as without it.
pub fn others_are_answered_alike()
    ensures { (json : Bool) (f : FunctionData) (input text : List ℕ) (e : End) →
        SpellsFunction json input f → (IsMinimal f → IsContinuous f) →
        IsReply (extreme_with_jumps json) input e text ↔ IsReply (extreme json) input e text }
{}

/// A minimal continuous function with two slopes is always called extreme: `extreme` tells of it
/// neither that a number is too wide nor that it jumps (Gomory and Johnson 1972); with `--json` the
/// proof text of the report calls it so.
pub fn two_slopes_are_called_extreme()
    ensures answer { (json : Bool) (f : FunctionData) (input text : List ℕ) (s : Status) →
        SpellsFunction json input f → IsMinimal f →
        HasTwoSlopes f → length input ≤ input_limit → IsAnswerTo (extreme json) input s text →
        (s ≡ Done) × CallsExtreme json f text }
    ensures reply { (json : Bool) (f : FunctionData) (input text : List ℕ) (e : End) →
        SpellsFunction json input f → IsMinimal f →
        HasTwoSlopes f → IsReply (extreme json) input e text → (e ≡ end.Done) ×
        CallsExtreme json f text }
{}

/// What `show` writes is a function text of the function that it read, and `show` writes it again
/// as it stands.
pub fn shown_text_is_read()
    ensures read { (input text : List ℕ) → IsReply (show false) input end.Done text →
        (f : FunctionData) × IsWholeFunctionText input f × IsWholeFunctionText text f }
    ensures answer { (input text again : List ℕ) (s : Status) →
        IsReply (show false) input end.Done text → IsAnswerTo (show false) text s again →
        (s ≡ Done) × (again ≡ text) }
    ensures reply { (input text again : List ℕ) (e : End) →
        IsReply (show false) input end.Done text → IsReply (show false) text e again →
        (e ≡ end.Done) × (again ≡ text) }
{}

/// A text is the report of one verdict and of one proof text, and so of one claim.
pub fn one_proof_in_a_report()
    ensures text { (verdict word first second text : List ℕ) → IsReport verdict first text →
        IsReport word second text →
        (verdict ≡ word) × (first ≡ second) }
    ensures claim { (c d : Claim) (verdict word first second text : List ℕ) →
        IsBounded c → IsBounded d →
        IsProofText c first → IsProofText d second → IsReport verdict first text →
        IsReport word second text → c ≡ d }
{}

/// To words and an input there is one status, and one text: words name at most one request, and a
/// request has one answer to an input. If that ends with Done it is the reply.
pub fn one_answer()
    ensures request { (words : List (String Global)) (r q : Request) → IsNamed words r →
        IsNamed words q → r ≡ q }
    ensures status { (r : Request) (input : List ℕ) (s t : Status) (x y : List ℕ) →
        IsAnswerTo (task_for r) input s x → IsAnswerTo (task_for r) input t y → s ≡ t }
    ensures text { (r : Request) (input : List ℕ) (s t : Status) (x y : List ℕ) →
        IsAnswerTo (task_for r) input s x → IsAnswerTo (task_for r) input t y → x ≡ y }
    ensures done { (r : Request) (input text : List ℕ) → IsAnswerTo (task_for r) input Done text →
        IsReply (task_for r) input end.Done text }
{}
