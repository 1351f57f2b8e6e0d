//! Which rule on a group fails first.

/// A rule on a group.
#[derive(Clone, Copy, Debug, PartialEq, Eq)]
pub enum GroupRule {
    /// The pair that names its row is tight.
    Row,
    /// A step is by a kept row with its pivot at the column, if the row is not 0.
    Reduce,
    /// No number of a step passes 2^127 - 1 in absolute value.
    Size,
    /// The pivot is new and within the components, and the row is 0 before it and not 0 there; of
    /// residues, it is invertible there.
    Pivot,
}

/// The first rule that fails on groups.
#[derive(Clone, Copy, Debug, PartialEq, Eq)]
pub struct GroupFailure {
    /// How many lines below the first line of the groups it fails.
    pub below: u64,
    /// The rule.
    pub rule: GroupRule,
}
