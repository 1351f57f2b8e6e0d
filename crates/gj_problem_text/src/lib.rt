//! The text of a problem with multipliers, read, and the text of its cuts, printed.
//!
//! [`cuts_text`] makes mixed-integer cuts, or cuts by a function, whose text stands in front of that
//! of the problem.
#![tactic(auto)]

mod answers;
mod entries;
mod faults;
mod input;
mod laws;
mod lines;
mod numbers;
mod places;
mod print;
mod read;
mod steps;
mod task;
mod text;

pub use faults::ProblemFault;
pub use input::{SafeInput, read_safe_input};
pub use laws::{
    cuts_have_terms, one_list_of_cuts, one_problem_text, one_safe_input, one_text_of_cuts,
    printed_input_is_read,
};
pub use lines::{Line, line_in, two_words};
pub use numbers::{Notation, number_of};
pub use places::Places;
pub use read::read_problem;
pub use steps::{bound_of, with_line};
pub use task::{Request, Task};
pub use text::cuts_text;
