//! Derivations with the function in front of them.
use crate::drafts::Drafts;
use gj_derivation::Step;
use gj_lex::Name;
use gj_problem::Problem;
use gj_shape::{List, Shape};

/// Steps that may lack claims.
#[derive(Drop)]
pub struct DraftInput {
    /// The function of the steps by a function, if there is one.
    pub function: Option<Shape>,
    /// The problem and the steps.
    pub drafts: Drafts,
}

/// Steps that all have claims.
#[derive(Drop)]
pub struct DerivationInput {
    /// The function of the steps by a function, if there is one.
    pub function: Option<Shape>,
    /// The names of the columns.
    pub columns: List<Name>,
    /// The names of the lines: those of the constraints, and then those of the steps.
    pub lines: List<Name>,
    /// The problem.
    pub problem: Problem,
    /// The steps.
    pub steps: List<Step>,
    /// How many bytes of the text are left from the line of each step on.
    pub left: List<usize>,
}
