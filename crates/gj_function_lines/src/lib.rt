//! The lines of a function: its order, its place and its points.
//!
//! `function_at` reads them in either spelling, and tests them in their order;
//! `push_function_lines` prints them in their one spelling. The form stands in
//! `specs/FunctionGrammar` (what is read, and the first fault) and in `specs/FunctionLines` (what
//! is printed). `break_in` reads the line of a breakpoint, and `push_break_line` prints it,
//! `specs/BreakLines`. `push_cover_lines` prints the lines of covered intervals.
#![tactic(auto)]

mod breaks;
mod faces;
mod function;
mod head;
mod laws;
mod place;
mod points;
mod print;
mod printed;

pub use breaks::break_in;
pub use faces::{face_word, push_cover_lines};
pub use function::function_at;
pub use laws::{
    canonical_lines_are_read, function_has_one_text, function_lines_are_exact,
    function_lines_are_short, read_functions_are_within_bounds, strict_lines_are_canonical,
};
pub use place::place_of;
pub use print::{push_break_line, push_fraction_line, push_function_lines, push_order_line};
