//! Texts of the cuts of a tableau.
//!
//! [`violation_of_rule`] tells whether a rule makes cuts. [`cuts_text`] is the text of the proof that
//! the cuts of the rows of a tableau by such a rule hold: every rule of the checker holds of its
//! claim. [`mixed_text`] prints the cuts of the rows of a tableau of which some columns are
//! continuous, those whose name begins with `c:` (`specs/MixedLines`): a group of lines a row, those
//! of its whole columns as in a proof text, and a line `weight` for each continuous column.
//! [`push_cut_row`] prints a row with the terms of its cut, for both.
#![tactic(auto)]

mod columns;
mod cuts;
mod lines;
mod mixed;
mod mixed_lines;
mod named;
mod rule;

pub use cuts::cuts_text;
pub use mixed::mixed_text;
pub use mixed_lines::MixedLine;
pub use named::push_cut_row;
pub use rule::violation_of_rule;
