//! Cuts of rows of simplex tableaux.
//!
//! [`cut_row`] makes the cut of a row by a rule: its coefficients are the rule's values at the
//! row's entries. It holds if the rule is minimal: at each solution of the row in whole numbers,
//! the nonbasic ones not negative, the sum of the coefficients times the nonbasic variables is at
//! least 1. [`gmic_cut_row`] makes the mixed-integer cut of a row.
//!
//! [`part_of`] tells whether a right side is whole, [`right_side`] what it is to a rule, and
//! [`gmic_place`] the f of the mixed-integer cut of a row. [`term`] makes the term of an entry.
#![tactic(auto)]

mod cut;
mod right_sides;
mod row_cuts;

pub use cut::{RowCut, Term};
pub use right_sides::{RightSide, gmic_place, part_of, right_side};
pub use row_cuts::{cut_row, gmic_cut_row, term};
