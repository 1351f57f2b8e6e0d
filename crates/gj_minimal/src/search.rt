//! The violation search.
ghost use Rattle.std.specs.Prelude.{ℕ, ◌≡◌, ◌*◌, ◌<◌, ◌≤◌, ◌^◌, IfSome, IfNone};
ghost use Rattle.gj_shape.specs.FunctionData.{IsWithinBounds, IsContinuous};
ghost use Rattle.gj_shape.specs.FirstViolation.{IsFirstViolation, PassesAll};
ghost use Rattle.gj_shape.specs.Table.{IsMinimal, IsMinimalOnGrid};
ghost use Rattle.gj_shape.specs.Violation.{ShowsViolation};
ghost use Rattle.gj_theory.specs.GridPoints.{IsAtGridPoints};
ghost use Rattle.gj_minimal.specs.Failures.{FailsFirst};

use crate::faces::failed_face;
use crate::failures::Failure;
use crate::shown::shown;
use crate::signs::{failed_interval_sign, failed_value};
use crate::symmetry::{failed_interval_mirror, failed_mirror};
use crate::vertices::failed_vertex;
use gj_shape::{Shape, Violation};

/// The first violation of minimality, or None if there is none: then the function is minimal.
///
/// The tests come in this order: the value at 0 is 0; no value at i/q is negative; on each open
/// interval from i/q to (i + 1)/q the limit from the right at its start is not negative, nor the
/// limit from the left at its end; the values at i/q and at f less i/q add up to 1; so do the
/// values at x and f less x on each open interval; at each (a/q, b/q) the slack is not negative,
/// for a from 0 and then for b from 0; and square by square in that order, on the faces in the
/// order horizontal, vertical, diagonal, lower and upper, the limit of the slack at each corner is
/// not negative.
///
/// A continuous function is minimal, and so gives None, if its table on its own grid is.
///
/// If a limit fails, the violation is shown at a point near the end or the corner, at the multiples
/// of 1/(q h) with the least h. All points shown are from 0 to below 1, and q h is at most 2^62. It
/// takes no memory.
///
/// ```text
/// // order 5, f = 3/5, values 0, 1/10, 9/10, 1, 1/2: 1/10 + 1/10 is less than 9/10
/// find_violation(&shape) == Some(Violation::Superadditive(1/5, 1/5))
/// ```
pub fn find_violation(shape: &Shape) -> Option<Violation>
    ensures first { IfSome result (IsFirstViolation shape.now) }
    ensures shown { IfSome result (ShowsViolation shape.now) }
    ensures points { IfSome result
        (λ v. (h : ℕ) × (0 < h) × (shape.now.order * h ≤ 2 ^ 62) × IsAtGridPoints shape.now h v) }
    ensures none { IfNone result (PassesAll shape.now) }
    ensures minimal { IfNone result (IsMinimal shape.now) }
    ensures only { IsMinimal shape.now → result ≡ None }
    ensures own_grid { IsContinuous shape.now → IsMinimalOnGrid shape.now 1 → result ≡ None }
    ensures limits { IsWithinBounds shape.now }
{
    let failure = first_failure(shape)?;
    Some(shown(shape, failure))
}

/// The first failed test of minimality.
fn first_failure(shape: &Shape) -> Option<Failure>
    ensures found { IfSome result (FailsFirst shape.now) }
    ensures none { IfNone result (PassesAll shape.now) }
    ensures limits { IsWithinBounds shape.now }
{
    let is_continuous = shape.is_continuous();
    if let Some(failure) = failed_value(shape) {
        return Some(failure);
    }
    if let Some(failure) = failed_interval_sign(shape, is_continuous) {
        return Some(failure);
    }
    if let Some(failure) = failed_mirror(shape) {
        return Some(failure);
    }
    if let Some(failure) = failed_interval_mirror(shape, is_continuous) {
        return Some(failure);
    }
    if let Some(failure) = failed_vertex(shape) {
        return Some(failure);
    }
    failed_face(shape, is_continuous)
}
