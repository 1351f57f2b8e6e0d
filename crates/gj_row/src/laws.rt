//! Laws of tableau texts.
ghost use Rattle.std.specs.Prelude.{◌≡◌, ℕ, List};
ghost use Rattle.gj_row.specs.TableauText.{IsTableauText};
ghost use Rattle.gj_row.specs.FirstFault.{IsFirstFaultOfTableau};
ghost use Rattle.gj_row.specs.declared.tableau.Tableau.{Tableau};
ghost use Rattle.gj_row.specs.declared.faults.RowReason.{RowReason};

/// A text spells one tableau at most.
pub fn one_tableau_for_a_text()
    ensures { (text : List ℕ) (t s : Tableau) → IsTableauText text t →
        IsTableauText text s → t ≡ s }
{}

/// A text that is refused spells no tableau.
pub fn no_fault_in_a_tableau_text()
    ensures { (text : List ℕ) (t : Tableau) (number : ℕ) (reason : RowReason) →
        IsTableauText text t →
        IsFirstFaultOfTableau text number reason → ⊥ }
{}

/// A text has one first fault: a refusal says which.
pub fn one_first_fault_of_a_tableau_text()
    ensures { (text : List ℕ) (n m : ℕ) (e d : RowReason) →
        IsFirstFaultOfTableau text n e → IsFirstFaultOfTableau text m d → (n ≡ m) × (e ≡ d) }
{}
