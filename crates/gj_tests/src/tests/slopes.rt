//! Which functions have two slopes.
use gj_fill::two_slopes;
use gj_frac::Frac;
use gj_shape::Shape;
use std::alloc::Global;

/// Whether the continuous function of this order and place with these values has two slopes.
fn has_two_slopes(alloc: Global, order: u32, place: u32, values: &[Frac]) -> Option<bool> {
    let shape = Shape::new(alloc, order, place, values, values, values).ok()?;
    Some(two_slopes(&shape))
}

/// The mixed-integer cut for f = 3/5.
fn one_rise_and_one_fall(alloc: Global) -> Option<bool> {
    let values = [
        Frac::ratio(0, 1),
        Frac::ratio(1, 3),
        Frac::ratio(2, 3),
        Frac::ratio(1, 1),
        Frac::ratio(1, 2),
    ];
    has_two_slopes(alloc, 5, 3, &values)
}

/// The function that rises and falls by 1/3 with the signs `++-++---`.
fn rises_and_falls(alloc: Global) -> Option<bool> {
    let values = [
        Frac::ratio(0, 1),
        Frac::ratio(1, 3),
        Frac::ratio(2, 3),
        Frac::ratio(1, 3),
        Frac::ratio(2, 3),
        Frac::ratio(1, 1),
        Frac::ratio(2, 3),
        Frac::ratio(1, 3),
    ];
    has_two_slopes(alloc, 8, 5, &values)
}

/// It rises by 1/5 and by 1/10, and falls by 1.
fn three_slopes(alloc: Global) -> Option<bool> {
    let values = [
        Frac::ratio(0, 1),
        Frac::ratio(1, 5),
        Frac::ratio(3, 10),
        Frac::ratio(2, 5),
        Frac::ratio(3, 5),
        Frac::ratio(7, 10),
        Frac::ratio(4, 5),
        Frac::ratio(1, 1),
    ];
    has_two_slopes(alloc, 8, 7, &values)
}

#[test]
fn slopes(rt: HostRuntime) {
    assert!(rt; one_rise_and_one_fall(rt.alloc()) == Some(true));
    assert!(rt; rises_and_falls(rt.alloc()) == Some(true));
    assert!(rt; three_slopes(rt.alloc()) == Some(false));
}
