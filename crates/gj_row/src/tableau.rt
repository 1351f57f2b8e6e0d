//! Tableaux and their rows.
use gj_frac::Frac;
use gj_lex::Name;
use gj_shape::List;

/// The coefficient of a column in a row.
#[derive(Clone, Copy, Debug, PartialEq, Eq)]
pub struct Entry {
    /// The column, counted from 0.
    pub column: u32,
    /// The coefficient.
    pub value: Frac,
}

/// A row of a simplex tableau: `basic + sum of entries = rhs`.
#[derive(Debug, Drop)]
pub struct Row {
    /// The name of the basic variable.
    pub basic: Name,
    /// The right side.
    pub rhs: Frac,
    /// The entries that are not 0, in the order of their columns.
    pub entries: List<Entry>,
}

/// The rows of a simplex tableau.
#[derive(Debug, Drop)]
pub struct Tableau {
    /// The names of the columns.
    pub columns: List<Name>,
    /// The rows.
    pub rows: List<Row>,
}
