//! Why a line of a text is refused.

ghost use Rattle.std.specs.Prelude.{◌≡◌};
ghost use Rattle.gj_lex.specs.Reason.{reason_word};

/// Why a line of a text is refused.
#[derive(Clone, Copy, Debug, PartialEq, Eq, Hash)]
pub enum Reason {
    /// The line has not the words that belong in its place, or the text has ended.
    Form,
    /// A word is no number where a number belongs, or a number out of its range.
    Number,
    /// The order is not from 2 to 1,000.
    Order,
    /// f is not strictly between 0 and 1, or not on the grid.
    Place,
    /// A value is above 2^20 in absolute value.
    Large,
    /// The common denominator of the values so far passes 2^31 - 1.
    Fine,
    /// A breakpoint is not in its place: the first at 0, each further one behind the one before and
    /// below 1.
    Break,
    /// f is not strictly between 0 and 1.
    BadF,
    /// The function would have more than 1,000 pieces: its order would pass 1,000.
    Pieces,
    /// There are fewer than two signs, or a byte among them is neither `+` nor `-`.
    Signs,
    /// No two slopes fit the signs.
    Slopes,
    /// Something follows the last line.
    Tail,
}

impl Reason {
    /// The word that names the reason.
    pub fn word(self) -> &'static str
        ensures { result.now ≡ reason_word self }
    {
        match self {
            Reason::Form => "form",
            Reason::Number => "number",
            Reason::Order => "order",
            Reason::Place => "place",
            Reason::Large => "large",
            Reason::Fine => "fine",
            Reason::Break => "break",
            Reason::BadF => "bad-f",
            Reason::Pieces => "pieces",
            Reason::Signs => "signs",
            Reason::Slopes => "slopes",
            Reason::Tail => "tail",
        }
    }
}
