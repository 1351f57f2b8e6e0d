//! Cuts of the rows of a tableau, as a claim has them.

ghost use Rattle.std.specs.Prelude.{◌≡◌};
ghost use Rattle.gj_proof.specs.ProofText.{reason_word};

use gj_frac::Frac;
use gj_lex::Name;
use gj_shape::{List, Shape};

/// The rule by which cuts are made.
#[derive(Drop)]
pub enum CutRule {
    /// The mixed-integer cut, for the f of each row: the fractional part of its right side.
    Gmic,
    /// The function.
    Table(Shape),
}

/// A row of a tableau with its cut, or that it is passed over.
#[derive(Debug, Drop)]
pub enum CutLine {
    /// The name of the basic variable, the right side of the row, and the terms of the cut.
    Cut(Name, Frac, List<CutTerm>),
    /// The name of the basic variable, the right side of the row, and why there is no cut.
    Skip(Name, Frac, SkipReason),
}

/// A term of a cut.
#[derive(Debug, Drop)]
pub struct CutTerm {
    /// The name of the variable.
    pub name: Name,
    /// Its entry in the row.
    pub entry: Frac,
    /// Its coefficient in the cut.
    pub cut: Frac,
}

/// Why a row has no cut.
#[derive(Clone, Copy, Debug, PartialEq, Eq)]
pub enum SkipReason {
    /// Its right side is a whole number.
    Integral,
    /// The fractional part of its right side is not the function's f.
    Other,
}

impl SkipReason {
    /// The word that names the reason.
    pub(crate) fn word(self) -> &'static str
        ensures { result.now ≡ reason_word self }
    {
        match self {
            SkipReason::Integral => "integral",
            SkipReason::Other => "other",
        }
    }
}
