//! Proof texts: claims about a function or about cuts, read and printed in their one spelling.
//!
//! A claim has a subject, lines of its own and demands that the checker makes
//! (`specs/ProofText.antt`, `specs/Rules.antt`), and it says something of its subject
//! (`specs/Meaning.antt`). `read_proof` and `write_proof` are inverse to each other: a claim has
//! one text, and a text is that of one claim.
#![tactic(auto)]

mod bounds;
mod claim;
mod cover_lines;
mod cut;
mod cut_rows;
mod faults;
mod fields;
mod halves;
mod laws;
mod layout;
mod modulus;
mod numbers;
mod pivot;
mod pivot_rows;
mod read;
mod violations;
mod write;
mod write_cuts;
mod write_extreme;

pub use bounds::are_cover_lines_below;
pub use claim::{Claim, Proof};
pub use cover_lines::cover_lines_at;
pub use cut::{CutLine, CutRule, CutTerm, SkipReason};
pub use faults::ProofFault;
pub use fields::{count_below, whole_of};
pub use halves::{HalvesHead, halves_head_at};
pub use laws::{
    extreme_proof_text_is_short, no_fault_in_proof_text, numbers_of_lines, one_first_fault,
    one_spelling, proof_text_is_short, proof_texts_are_read,
};
pub use layout::{
    CLAIM_LINE, first_group_line, line_behind_covers, line_behind_function, line_behind_group,
    line_behind_row, line_behind_rule, line_below, line_of_pair, lines_with_steps,
    lines_with_terms,
};
pub use modulus::behind_modulus;
pub use numbers::{MODULUS, Numbers};
pub use pivot::PivotRow;
pub use pivot_rows::{column_at, steps_at};
pub use read::read_proof;
pub use write::{push_violation_line, write_proof};
pub use write_cuts::{NAMED_SPACE, push_cut_head, push_rule_lines, push_skip_line, write_named};
pub use write_extreme::{
    push_column, push_halves, push_halves_head, push_halves_line, push_modulus, push_reductions,
    push_whole,
};
