//! What the text of a derivation tells, line by line.
use gj_derivation::Draft;
use gj_lex::Name;
use gj_problem_text::Task;
use gj_shape::List;

/// A problem, and steps over it.
#[derive(Drop)]
pub struct Drafts {
    /// The problem, and the grid for the claims that are to be found. It asks for no row.
    pub task: Task,
    /// The names of the lines: those of the constraints, and then those of the steps.
    pub lines: List<Name>,
    /// The steps.
    pub steps: List<Draft>,
    /// How many bytes of the text are left from the line of each step on.
    pub left: List<usize>,
}
