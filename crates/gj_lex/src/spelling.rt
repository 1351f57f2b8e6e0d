//! The two ways in which texts are spelled.

/// How a text is spelled.
#[derive(Clone, Copy, Debug, PartialEq, Eq)]
pub enum Spelling {
    /// Lines without a word, and lines whose first word begins with `#`, are skipped. Words stand
    /// apart by spaces and tabs, a CR before the LF of a line is dropped, and the last line needs
    /// no LF. Numbers have many spellings.
    Lenient,
    /// No line is skipped. One space stands between words, each line ends with LF, and numbers have
    /// one spelling.
    Strict,
}
