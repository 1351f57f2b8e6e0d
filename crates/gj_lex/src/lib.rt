//! Lines of a source, words, numbers and names: read in two spellings and printed in one.
//!
//! A text is lenient or strict (`Spelling`). `Cursor` gives the lines of a source, and `words_of`
//! the words of a line. `fraction_of`, `is_count` and `count_of` read numbers, `print_frac`,
//! `print_count` and `print_counts` print them, and `push_count_line` a line of a word and a count.
//! `write_spaced` writes a space and a fraction into a text that has room for them.
//! No reader of numbers takes memory. `leading_decimal` and `leading_ratio` read a decimal and a
//! fraction whose end is not known yet.
//! `printed_fraction`, `printed_whole` and `printed_number` read a number as it is printed, and
//! `behind_byte` one byte, where the text is read from its front and not cut into words.
//! `first_line_feed`, `first_blank` and `first_byte` say where a line, a word and blanks end.
//!
//! The lines of texts by their words, and forms of text, stand in `gj_forms`.
#![tactic(auto)]

mod canonical;
mod cursor;
mod digits;
mod laws;
mod leading;
mod lenient;
mod line_feeds;
mod name;
mod print;
mod printed;
mod reason;
mod spelled;
mod spelling;
mod words;

pub use canonical::{read_canonical, read_count};
pub use cursor::{Cursor, LineSpan};
pub use laws::{
    canonical_text_is_a_word, canonical_texts_are_short, count_is_one_word, fraction_is_one_word,
    one_fraction_for_a_text,
};
pub use leading::{leading_decimal, leading_ratio};
pub use lenient::read_number;
pub use line_feeds::first_line_feed;
pub use name::{Name, NameFault};
pub use print::{print_count, print_counts, print_frac, push_count_line, write_spaced};
pub use printed::{behind_byte, printed_fraction, printed_number, printed_whole};
pub use reason::Reason;
pub use spelled::{count_of, fraction_of, is_count};
pub use spelling::Spelling;
pub use words::{first_blank, first_byte, words_of};
