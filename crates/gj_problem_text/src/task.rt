//! A problem, and which rows of it give cuts.
use gj_lex::Name;
use gj_problem::{Problem, Sparse};
use gj_shape::List;

/// What is asked of a problem.
#[derive(Drop)]
pub enum Request {
    /// From here on the column with this index is turned by its upper bound, if it has one.
    Upper(u32),
    /// The cut of the row by these multipliers, one for each constraint.
    Sum(Sparse),
}

/// A problem, and which rows of it give cuts.
#[derive(Drop)]
pub struct Task {
    /// The names of the columns.
    pub names: List<Name>,
    /// The problem.
    pub problem: Problem,
    /// How many entries its constraints have: at most 100,000 if a text tells the task.
    pub entries: u32,
    /// The rows that give cuts.
    pub requests: List<Request>,
    /// How many of these requests are sums.
    pub sums: u32,
    /// The cuts are rounded to multiples of one over this. It is not 0 if a text tells the task.
    pub grid: Option<u32>,
    /// They are made with all data on the grid of one over this. Nor is this 0.
    pub round: Option<u32>,
}
