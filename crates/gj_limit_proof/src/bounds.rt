//! The ranges and counts of claims about functions that jump, tested.
ghost use Rattle.std.specs.Prelude.{◌≡◌, ◌↔◌, ◌<◌, ℕ, All, IsTrue, length};
ghost use Rattle.gj_frac.specs.Fraction.{Fits};
ghost use Rattle.gj_shape.specs.Faces.{corners_of};
ghost use Rattle.gj_limit_proof.specs.LimitText.{greatest_columns, IsRowWithin};
ghost use Rattle.gj_limit_proof.specs.LimitText.{IsLimitRowWithin, IsLimitPivotRowBelow};
ghost use Rattle.gj_limit_proof.specs.LimitText.{AreSideNumbersWithin, AreLimitHalvesInBounds};

use crate::claim::LimitPivotRow;
use gj_limit_system::LimitRow;
use gj_shape::{FaceKind, GREATEST_HALVES_ORDER, GREATEST_HALVES_SCALE, LimitHalves, SideNumbers};

/// The columns of rows are below this number.
pub const GREATEST_COLUMNS: u32 = 3000;

/// Whether the names and the columns of each row are those of the form.
pub(crate) fn are_limit_pivot_rows_below(order: u32, rows: &[LimitPivotRow]) -> bool
    ensures { IsTrue result ↔ All (IsLimitPivotRowBelow order) rows.now }
{
    rows.iter().all(|row| is_limit_pivot_row_below(order, row))
}

/// Whether the name and the columns of the row are those of the form.
fn is_limit_pivot_row_below(order: u32, row: &LimitPivotRow) -> bool
    ensures { IsTrue result ↔ IsLimitPivotRowBelow order row.now }
{
    is_row_within(order, row.name)
        && row.pivot < GREATEST_COLUMNS
        && row
            .reduce
            .as_slice()
            .iter()
            .all(|column| *column < GREATEST_COLUMNS)
}

/// Whether the corner of a limit that names the row is one of its face, and the points ascend to
/// below the order.
fn is_row_within(order: u32, name: LimitRow) -> bool
    ensures { IsTrue result ↔ IsRowWithin order name }
{
    match name {
        LimitRow::F => true,
        LimitRow::Tight { kind, corner, a, b } => {
            corner < corner_count(kind) && are_points_within(order, kind, a, b)
        }
    }
}

/// Whether the points ascend to below the order, and those of a limit at values alone from 1 on.
pub(crate) fn are_points_within(order: u32, kind: FaceKind, a: u32, b: u32) -> bool
    ensures { (corner : ℕ) → corner < length (corners_of kind 0 0) →
        (IsTrue result ↔ IsLimitRowWithin order kind corner a b) }
{
    a <= b && b < order && (kind != FaceKind::Vertex || 1 <= a)
}

/// How many corners a face of this kind has.
fn corner_count(kind: FaceKind) -> u32
    ensures { result ≡ length (corners_of kind 0 0) }
{
    match kind {
        FaceKind::Vertex => 1,
        FaceKind::Horizontal | FaceKind::Vertical | FaceKind::Diagonal => 2,
        FaceKind::Lower | FaceKind::Upper => 3,
    }
}

/// Whether the order, the scale and the numbers of halves are within the limits, and there are as
/// many numbers as the order says.
pub(crate) fn are_limit_halves_in_bounds(halves: &LimitHalves) -> bool
    ensures { IsTrue result ↔ AreLimitHalvesInBounds halves.now }
{
    2 <= halves.order
        && halves.order <= GREATEST_HALVES_ORDER
        && 1 <= halves.scale
        && halves.scale <= GREATEST_HALVES_SCALE
        && are_side_numbers_within(halves.order, &halves.first)
        && are_side_numbers_within(halves.order, &halves.second)
}

/// Whether there are so many numbers of each side, and all fit.
fn are_side_numbers_within(order: u32, numbers: &SideNumbers) -> bool
    ensures { IsTrue result ↔ AreSideNumbersWithin order numbers.now }
{
    fit_as_many(order, numbers.left.as_slice())
        && fit_as_many(order, numbers.value.as_slice())
        && fit_as_many(order, numbers.right.as_slice())
}

/// Whether there are so many numbers, all at most 2^127 - 1 in absolute value.
fn fit_as_many(order: u32, numbers: &[i128]) -> bool
    ensures { IsTrue result ↔ ((length numbers.now ≡ order) × All Fits numbers.now) }
{
    numbers.len() == order as usize && numbers.iter().all(|n| *n != i128::MIN)
}
