//! Lines that read and write themselves.
//!
//! A [`Field`] is a word of a line that is read and written: a name, or a fraction. [`Fields`] are
//! tuples of such, and [`Named`] is a known first word with fields behind it. [`push_line`] writes
//! the lines of such a form. They are read by the first word, and by [`Fields::of_words`] of what
//! stands behind it.
#![tactic(auto)]

mod field;
mod fields;
mod line;
mod numbers;
mod word;

pub use field::Field;
pub use fields::Fields;
pub use line::push_line;
pub use numbers::{Fraction, NameWord, PositiveFraction};
pub use word::{KnownWord, Named};
