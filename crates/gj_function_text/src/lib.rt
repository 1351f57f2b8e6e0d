//! Function text: read in any of its spellings, and printed in one.
//!
//! `read_function` reads a function text at the front of bytes, `read_whole_function` one after
//! which nothing may follow, and `write_function` prints the canonical text, `write_breaks` that of
//! breakpoints of a continuous function, and `write_breaks_with_limits` that of any breakpoints.
//! The form stands in `specs/FunctionText.antt` as a part made of lines: the title, the lines of a
//! function or one line that names a function of a family, and `end`. `read_rule` reads a rule text
//! at the front of bytes, `specs/RuleText.antt`, and `begins_as_rule` tells which of the two forms
//! a text is to be read in.
#![tactic(auto)]

mod body;
mod breaks;
mod family;
mod faults;
mod laws;
mod print_breaks;
mod read;
mod rule;
mod write;

pub use faults::TextFault;
pub use laws::{
    breaks_are_read_again, canonical_text_is_function_text, canonical_text_is_short,
    function_text_is_lines, no_fault_in_function_text, one_canonical_text, one_first_fault,
    one_function_text, one_rule_text,
};
pub use print_breaks::{write_breaks, write_breaks_with_limits};
pub use read::{read_function, read_whole_function};
pub use rule::{begins_as_rule, read_rule};
pub use write::write_function;
