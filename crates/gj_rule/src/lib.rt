//! Stored evaluators of cut-generating functions.
//!
//! A [`Rule`] keeps a kind, the mixed-integer cut for some f or a function, beside a closure that
//! answers the kind's value at each fraction of the range: of denominator at most 2^31 - 1 and at
//! most 2^31 in absolute value. So there is a rule for an f whose denominator is too large for a
//! [`Shape`]. [`gmic_value`] and [`table_value`] are evaluators for such closures. [`quotient`]
//! divides fractions with small parts.
//!
//! [`Shape`]: gj_shape::Shape
#![tactic(auto)]

mod evaluator;
mod evaluators;
mod kind;
mod rule;

pub use evaluator::Evaluator;
pub use evaluators::{gmic_value, is_in_range, quotient, table_value};
pub use kind::RuleKind;
pub use rule::Rule;
