//! Laws of calls: their answers, and what the word `problem` asks for.

ghost use Rattle.std.specs.Prelude.{◌≡◌, ◌≤◌, ℕ, List};
ghost use Rattle.gj_top.specs.declared.status.Status.{Status};
ghost use Rattle.gj_library.specs.Call.{IsAnswered, IsCall, IsTooSmall};
ghost use Rattle.gj_library.specs.ProblemCall.{IsProblemCall, problem_word};

/// To the words of a call over an input there is one answer, of one status and one text. So a
/// second call with as much room as the first says has room.
pub fn one_answer_to_a_call()
    ensures status { (words input x y : List ℕ) (s t : Status) →
        IsAnswered words input s x → IsAnswered words input t y → s ≡ t }
    ensures text { (words input x y : List ℕ) (s t : Status) →
        IsAnswered words input s x → IsAnswered words input t y → x ≡ y }
    ensures room { (words input front again : List ℕ) (room more whole other : ℕ) →
        IsTooSmall words input room front whole → whole ≤ more → IsTooSmall words input more again other → ⊥ }
{}

/// A call with the word `problem` answers the text of a problem with the cuts that it asks for.
pub fn problem_calls()
    ensures { (input front : List ℕ) (room code : ℕ) →
        IsCall problem_word input room front code → IsProblemCall input front code }
{}
