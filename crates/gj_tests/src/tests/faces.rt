//! Limits, faces, cover and rows by calls that no command makes.
use crate::tests::of_order_2;
use gj_complex::slack;
use gj_cover::{cover, cover_of_runs};
use gj_faces::{Run, maximal, runs};
use gj_frac::Frac;
use gj_shape::{Face, FaceKind, RowName, Shape};
use gj_system::row_of;
use std::alloc::Global;

/// The function of order 2 with f = 1/2 that has at 0 the limit 1 from the left, the value 0 and
/// the limit 1/2 from the right, and at 1/2 the limit 1/2, the value 1 and the limit 0. The limit
/// at the corner 1 of Lower (0, 1): with R and L for the limits from the right and left, L(1) +
/// R(1) - L(2) = 1/2 + 0 - 1.
fn slack_at_jumps(alloc: Global) -> Option<Frac> {
    let zero = Frac::ratio(0, 1);
    let half = Frac::ratio(1, 2);
    let one = Frac::ratio(1, 1);
    let shape = Shape::new(alloc, 2, 1, &[one, half], &[zero, one], &[half, zero]).ok()?;
    let lower = Face {
        kind: FaceKind::Lower,
        a: 0,
        b: 1,
    };
    Some(slack(&shape, lower, 1))
}

/// The function of order 2 with f = 1/2 and the values 0 and 1: all pairs but (1, 1) are tight,
/// where the slack is 2. Its maximal faces are Lower (0, 0) and Upper (1, 1).
fn faces_of_the_tent(alloc: Global) -> Option<bool> {
    let shape = of_order_2(alloc, Frac::ratio(1, 1))?;
    if !shape.is_continuous() {
        return None;
    }
    let tight = [
        Run {
            a: 0,
            from: 0,
            to: 1,
        },
        Run {
            a: 1,
            from: 0,
            to: 0,
        },
    ];
    let lower = Face {
        kind: FaceKind::Lower,
        a: 0,
        b: 0,
    };
    let upper = Face {
        kind: FaceKind::Upper,
        a: 1,
        b: 1,
    };
    let runs = runs(alloc, &shape).ok()?;
    let faces = maximal(alloc, &shape).ok()?;
    Some(runs.as_slice() == tight.as_slice() && faces.as_slice() == [lower, upper].as_slice())
}

/// Lower (0, 0) covers the interval 0 and Upper (1, 1) the interval 1.
fn cover_of_the_tent(alloc: Global) -> Option<bool> {
    let shape = of_order_2(alloc, Frac::ratio(1, 1))?;
    if !shape.is_continuous() {
        return None;
    }
    let found = cover(alloc, &shape).ok()?;
    Some(found.count == 2 && found.component.as_slice() == [Some(0), Some(1)].as_slice())
}

/// The same from the runs of its tight pairs.
fn cover_of_two_runs(alloc: Global) -> Option<bool> {
    let runs = [
        Run {
            a: 0,
            from: 0,
            to: 1,
        },
        Run {
            a: 1,
            from: 0,
            to: 0,
        },
    ];
    let found = cover_of_runs(alloc, &runs, 2).ok()?;
    Some(found.count == 2 && found.component.as_slice() == [Some(0), Some(1)].as_slice())
}

/// The row of the pair (2, 4) with f at 3/5, for three intervals of one component and then two of
/// another.
fn row_of_a_pair(alloc: Global) -> Option<bool> {
    let row = row_of(alloc, &[0, 0, 0, 1, 1], 2, 3, RowName::Pair(2, 4)).ok()?;
    Some(row.as_slice() == [4, 1].as_slice())
}

#[test]
fn faces(rt: HostRuntime) {
    assert!(rt; slack_at_jumps(rt.alloc()) == Some(Frac::ratio(-1, 2)));
    assert!(rt; faces_of_the_tent(rt.alloc()) == Some(true));
    assert!(rt; cover_of_the_tent(rt.alloc()) == Some(true));
    assert!(rt; cover_of_two_runs(rt.alloc()) == Some(true));
    assert!(rt; row_of_a_pair(rt.alloc()) == Some(true));
}
