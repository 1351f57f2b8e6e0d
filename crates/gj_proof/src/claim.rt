//! Claims about a function or about cuts, and those among them that have a proof text.

ghost use Rattle.std.specs.Prelude.{◌≡◌, ◌↔◌, IfSome, IsSome, IsTrue};
ghost use Rattle.gj_proof.specs.ProofText.{HasText, AreExtremeLines};

use crate::bounds::{are_cover_lines_below, are_halves_in_bounds, are_pivot_rows_below};
use crate::cut::{CutLine, CutRule};
use crate::numbers::Numbers;
use crate::pivot::PivotRow;
use gj_shape::{CoverLine, Halves, List, Shape, Violation};
use std::marker::Model;

/// A claim about a function, or about cuts.
#[derive(Drop)]
pub enum Claim {
    /// The function is minimal.
    Minimal(Shape),
    /// The function is not minimal, as the violation shows.
    NotMinimal(Shape, Violation),
    /// Each cut that is made by the rule holds at every solution of its row.
    Cut(CutRule, List<CutLine>),
    /// The function is extreme: the lines tell why each interval is covered, and the rows leave no
    /// other slopes than 0.
    Extreme(Shape, List<CoverLine>, List<PivotRow>),
    /// The same, by rows of residues modulo `MODULUS`.
    ExtremeByResidues(Shape, List<CoverLine>, List<PivotRow>),
    /// The function is not extreme: it is the average of the halves.
    NotExtreme(Shape, Halves),
}

impl Claim {
    ghost use Rattle.gj_proof.specs.ProofText.{claim_word, numbers_of};

    /// The word of the claim, as its proof text and its report tell it. It takes no memory.
    pub fn word(&self) -> &'static str
        ensures { result.now ≡ claim_word self.now }
    {
        let word = match self {
            Claim::Minimal(_) => ClaimWord::Minimal,
            Claim::NotMinimal(_, _) => ClaimWord::NotMinimal,
            Claim::Cut(_, _) => ClaimWord::Cut,
            Claim::Extreme(_, _, _) => ClaimWord::Extreme(Numbers::Whole),
            Claim::ExtremeByResidues(_, _, _) => ClaimWord::Extreme(Numbers::Residues),
            Claim::NotExtreme(_, _) => ClaimWord::NotExtreme,
        };
        word.word()
    }

    /// The numbers of the rows of the claim: residues, if it says so, and else whole numbers. It
    /// takes no memory.
    pub fn numbers(&self) -> Numbers
        ensures { result ≡ numbers_of self.now }
    {
        match self {
            Claim::ExtremeByResidues(_, _, _) => Numbers::Residues,
            _ => Numbers::Whole,
        }
    }
}

/// The word of a claim.
#[derive(Clone, Copy)]
pub(crate) enum ClaimWord {
    Minimal,
    NotMinimal,
    Cut,
    /// By rows of these numbers.
    Extreme(Numbers),
    NotExtreme,
}

impl ClaimWord {
    ghost use Rattle.gj_proof.specs.ProofGrammar.{numbers_of_word, claim_word_text};

    /// The words of all claims.
    pub const ALL: [ClaimWord; 6] = [
        ClaimWord::Minimal,
        ClaimWord::NotMinimal,
        ClaimWord::Cut,
        ClaimWord::Extreme(Numbers::Whole),
        ClaimWord::Extreme(Numbers::Residues),
        ClaimWord::NotExtreme,
    ];

    /// The word itself, as it stands behind `claim`.
    pub fn word(self) -> &'static str
        ensures { result.now ≡ claim_word_text self }
    {
        match self {
            ClaimWord::Minimal => "minimal",
            ClaimWord::NotMinimal => "not-minimal",
            ClaimWord::Cut => "cut",
            ClaimWord::Extreme(_) => "extreme",
            ClaimWord::NotExtreme => "not-extreme",
        }
    }

    /// The numbers of the texts in which the word stands.
    pub fn numbers(self) -> Numbers
        ensures { result ≡ numbers_of_word self }
    {
        match self {
            ClaimWord::Extreme(numbers) => numbers,
            ClaimWord::Minimal | ClaimWord::NotMinimal | ClaimWord::Cut | ClaimWord::NotExtreme =>
                Numbers::Whole,
        }
    }
}

/// A claim that has a proof text. Contracts see it as the claim.
#[derive(Drop)]
pub struct Proof {
    claim: Claim,
}

impl Model for Proof {
    ghost use Rattle.gj_proof.specs.declared.claim.Claim.{Claim};

    ghost Value = { Claim };

    ghost view = { λ p. p.claim };

    ghost use Rattle.gj_proof.specs.ProofText.{HasText};

    ghost invariant = { λ p. HasText p.claim };
}

impl Proof {
    ghost use Rattle.gj_proof.specs.ProofText.{HasText};

    /// The proof of a claim. None exactly if the claim has no text: if a range or a count is not
    /// that of the form. It takes no memory.
    pub fn new(claim: Claim) -> Option<Proof>
        ensures some { IsSome result ↔ HasText claim }
        ensures claim { IfSome result (λ p. p ≡ claim) }
    {
        if !has_text(&claim) {
            return None;
        }
        Some(Proof::of(claim))
    }

    /// The proof of a claim that is known to have a text. It takes no memory and tests nothing.
    pub fn of(claim: Claim) -> Proof
        requires text { HasText claim }
        ensures claim { result ≡ claim }
    {
        Proof { claim }
    }

    /// The claim. It takes no memory.
    pub fn claim(&self) -> &Claim
        ensures claim { result.now ≡ self.now }
        ensures has_text { HasText self.now }
    {
        &self.claim
    }
}

/// Whether the claim has a proof text.
fn has_text(claim: &Claim) -> bool
    ensures { IsTrue result ↔ HasText claim.now }
{
    match claim {
        Claim::Minimal(_) | Claim::NotMinimal(_, _) | Claim::Cut(_, _) => true,
        Claim::Extreme(shape, lines, rows) | Claim::ExtremeByResidues(shape, lines, rows) => {
            are_extreme_lines(shape, lines.as_slice(), rows.as_slice())
        }
        Claim::NotExtreme(_, halves) => are_halves_in_bounds(halves),
    }
}

/// Whether each interval has a line, and the lines and the rows are within the ranges of the form.
fn are_extreme_lines(shape: &Shape, lines: &[CoverLine], rows: &[PivotRow]) -> bool
    ensures { IsTrue result ↔ AreExtremeLines shape.now lines.now rows.now }
{
    let order = shape.order();
    lines.len() == order as usize
        && are_cover_lines_below(order, lines)
        && are_pivot_rows_below(order, rows)
}
