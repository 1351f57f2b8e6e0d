//! Proof texts about functions that jump, read and printed in their one spelling.
//!
//! A text of this kind begins with `gj-proof 3`. It claims that a minimal function is extreme, or
//! that it is not. The grammar stands in `specs/LimitGrammar.antt`, the one spelling in
//! `specs/LimitText.antt`, what the checker demands in `specs/LimitRules.antt`, and what is claimed
//! in `specs/LimitMeaning.antt`. `read_limit_proof` and `write_limit_proof` are inverse to each
//! other: a claim has one text, and a text is that of one claim.
#![tactic(auto)]

mod bounds;
mod claim;
mod groups;
mod laws;
mod layout;
mod pairs;
mod read;
mod rows;
mod sides;
mod three_words;
mod triple;
mod write;
mod write_groups;
mod write_pairs;

pub use bounds::GREATEST_COLUMNS;
pub use claim::{LimitClaim, LimitPivotRow, LimitProof};
pub use laws::{
    limit_proof_text_is_printable, limit_proof_texts_are_read, no_fault_in_limit_proof_text,
    numbers_of_limit_lines, one_first_limit_fault, one_limit_spelling,
};
pub use layout::{first_group_line, line_behind_group, line_of_pair, lines_with_steps};
pub use read::read_limit_proof;
pub use triple::{Triple, triple_at};
pub use write::write_limit_proof;
