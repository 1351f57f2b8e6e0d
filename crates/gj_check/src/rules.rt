//! The checker's rules.

/// A rule of the checker. Its word is its name in lower case.
#[derive(Clone, Copy, Debug, PartialEq, Eq)]
pub enum CheckRule {
    /// The function is minimal.
    Minimal,
    /// The function is continuous.
    Continuous,
    /// The coordinates of a violation lie from 0 to below 1, with a common denominator of at most
    /// 2^62, and the violation is shown there.
    Point,
    /// A line of a cover extends a component.
    Cover,
    /// The pair of a row is tight.
    Row,
    /// A row is reduced at a column where it has an entry and an earlier row has its pivot.
    Reduce,
    /// The numbers of a reduction of whole numbers are at most 2^127 - 1 in absolute value.
    Size,
    /// The pivot of a row is its first entry, in a column with no earlier pivot; of residues, it
    /// has an inverse.
    Pivot,
    /// There are as many pivots as components.
    Rank,
    /// The order and the scale of the halves are multiples of the function's.
    Scale,
    /// The entries of the halves lie from 0 to their scale.
    Range,
    /// The halves average to the function.
    Average,
    /// The first half is minimal.
    First,
    /// The second half is minimal.
    Second,
    /// The halves differ.
    Same,
    /// The fractional part of a right side fits the line: for a cut it is the function's f, or for
    /// the mixed-integer cut not 0; for a skipped row it is 0, or another than f, as the line says.
    Fraction,
    /// The numbers of a row are within the limits.
    Limit,
    /// The names of a row differ.
    Name,
    /// A coefficient is the value of the function, or that of the mixed-integer cut.
    Value,
}

impl CheckRule {
    ghost use Rattle.std.specs.Prelude.{◌≡◌};
    ghost use Rattle.gj_check.specs.RuleWords.{rule_word};

    /// The word of the rule.
    pub fn word(self) -> &'static str
        ensures { result.now ≡ rule_word self }
    {
        match self {
            CheckRule::Minimal => "minimal",
            CheckRule::Continuous => "continuous",
            CheckRule::Point => "point",
            CheckRule::Cover => "cover",
            CheckRule::Row => "row",
            CheckRule::Reduce => "reduce",
            CheckRule::Size => "size",
            CheckRule::Pivot => "pivot",
            CheckRule::Rank => "rank",
            CheckRule::Scale => "scale",
            CheckRule::Range => "range",
            CheckRule::Average => "average",
            CheckRule::First => "first",
            CheckRule::Second => "second",
            CheckRule::Same => "same",
            CheckRule::Fraction => "fraction",
            CheckRule::Limit => "limit",
            CheckRule::Name => "name",
            CheckRule::Value => "value",
        }
    }
}
