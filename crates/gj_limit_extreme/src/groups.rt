//! The rows that are kept, as a proof has them.
use gj_extreme::GroupMaker;
use gj_limit_proof::LimitPivotRow;
use gj_limit_system::LimitRow;
use gj_shape::List;

/// Makes the groups of a function that jumps.
pub(crate) struct LimitPivotRows;

impl GroupMaker for LimitPivotRows {
    type Name = LimitRow;

    type Group = LimitPivotRow;

    ghost made = { λ n r p. record { name = n; reduce = r; pivot = p } };

    fn group(name: LimitRow, reduce: List<u32>, pivot: u32) -> LimitPivotRow {
        LimitPivotRow {
            name,
            reduce,
            pivot,
        }
    }
}
