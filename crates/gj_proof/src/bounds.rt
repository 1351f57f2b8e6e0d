//! The ranges and counts of claims of extremality, tested.
ghost use Rattle.std.specs.Prelude.{◌≡◌, ◌↔◌, All, IsTrue};
ghost use Rattle.gj_frac.specs.Fraction.{Fits};
ghost use Rattle.gj_shape.specs.Perturbation.{AreHalvesInBounds};
ghost use Rattle.gj_proof.specs.ProofText.{IsCoverLineBelow, IsRowNameBelow, IsPivotRowBelow};
ghost use Rattle.gj_proof.specs.ProofGrammar.{IsHeadInBounds};

use crate::pivot::PivotRow;
use gj_shape::{
    CoverLine, FaceKind, GREATEST_HALVES_ORDER, GREATEST_HALVES_SCALE, GREATEST_ORDER, Halves,
    RowName,
};

/// Whether the intervals and the square of each line are below the order, and no face is a vertex.
pub fn are_cover_lines_below(order: u32, lines: &[CoverLine]) -> bool
    ensures { IsTrue result ↔ All (IsCoverLineBelow order) lines.now }
{
    lines.iter().all(|line| is_cover_line_below(order, *line))
}

/// Whether the intervals and the square of the line are below the order, and its face is no vertex.
fn is_cover_line_below(order: u32, line: CoverLine) -> bool
    ensures { IsTrue result ↔ IsCoverLineBelow order line }
{
    line.interval < order
        && line.from < order
        && line.face.a < order
        && line.face.b < order
        && line.face.kind != FaceKind::Vertex
}

/// Whether the names and the columns of each row are those of the form.
pub(crate) fn are_pivot_rows_below(order: u32, rows: &[PivotRow]) -> bool
    ensures { IsTrue result ↔ All (IsPivotRowBelow order) rows.now }
{
    rows.iter().all(|row| is_pivot_row_below(order, row))
}

/// Whether the name and the columns of the row are those of the form.
fn is_pivot_row_below(order: u32, row: &PivotRow) -> bool
    ensures { IsTrue result ↔ IsPivotRowBelow order row.now }
{
    is_row_name_below(order, row.name)
        && row.pivot < GREATEST_ORDER
        && row
            .reduce
            .as_slice()
            .iter()
            .all(|column| *column < GREATEST_ORDER)
}

/// Whether a pair that names the row ascends, from 1 to below the order.
pub(crate) fn is_row_name_below(order: u32, name: RowName) -> bool
    ensures { IsTrue result ↔ IsRowNameBelow order name }
{
    match name {
        RowName::Period | RowName::F => true,
        RowName::Pair(a, b) => 1 <= a && a <= b && b < order,
    }
}

/// Whether the order, the scale and the values of halves are within the limits, and there are as
/// many values as the order says.
pub(crate) fn are_halves_in_bounds(halves: &Halves) -> bool
    ensures { IsTrue result ↔ AreHalvesInBounds halves.now }
{
    let count = halves.order as usize;
    is_head_in_bounds(halves.order, halves.scale)
        && halves.first.as_slice().len() == count
        && halves.second.as_slice().len() == count
        && fit_pairs(halves.first.as_slice())
        && fit_pairs(halves.second.as_slice())
}

/// Whether the order and the scale of halves are within the limits.
pub(crate) fn is_head_in_bounds(order: u32, scale: i128) -> bool
    ensures { IsTrue result ↔ IsHeadInBounds (record { order = order; scale = scale }) }
{
    2 <= order && order <= GREATEST_HALVES_ORDER && 1 <= scale && scale <= GREATEST_HALVES_SCALE
}

/// Whether all numbers are at most 2^127 - 1 in absolute value.
fn fit_pairs(numbers: &[i128]) -> bool
    ensures { IsTrue result ↔ All Fits numbers.now }
{
    numbers.iter().all(|n| *n != i128::MIN)
}
