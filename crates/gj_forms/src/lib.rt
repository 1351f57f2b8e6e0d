//! Texts as lines of words, in two spellings: forms of text, and forms of lines.
//!
//! In both spellings a line is a list of words. `line_at` gives the next line, `words_at` a line of
//! given words, `end_at` that nothing follows, and `split_word` and its like the words of a line.
//! None of the readers takes memory. `write_pair` and `write_word` write the end of a line into a
//! text that has room for it, and `print_pair` appends one.
//!
//! A form of text is a part made of lines, `specs/Parts.antt`: it says what a text spells and which
//! line is the first at fault. `proofs/PartLaws.antt` has the laws that crates above cite: parts
//! made of exact parts are exact.
//!
//! A line is defined once, by the words and numbers that it tells. `specs/LineForms.antt`: a form is
//! one function from a thing to the fields of its line, and what the words and the bytes of a line
//! are, which words are a line and which break its form. `SpelledForms`: the same in either
//! spelling. `ListParts`: parts of texts that are lists. `proofs/` has their laws: a clear form is
//! exact, and what is printed is read again as the same.
#![tactic(auto)]

mod begins;
mod fault;
mod fields;
mod laws;
mod line_fault;
mod named;
mod text_lines;
mod written;

pub use begins::{begins_with_line, begins_with_word, behind_text, line_with_word};
pub use fault::PartFault;
pub use fields::{
    behind_name, field_of, has_no_word, has_words, only_word, split_word, two_fields_of,
};
pub use laws::strict_line_is_lenient;
pub use line_fault::LineFault;
pub use named::name_of;
pub use text_lines::{TextLine, end_at, line_at, line_number, words_at};
pub use written::{print_pair, write_pair, write_word};
