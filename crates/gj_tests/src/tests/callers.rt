//! The calls of `gj_example` on a function with a verdict by hand.
use gj_example::{checked_proof, is_extreme};
use gj_frac::Frac;
use gj_shape::Shape;
use std::alloc::Global;

/// The mixed-integer cut for f = 3/5 is extreme, and its proof says so.
fn mixed_integer_cut(alloc: Global) -> Option<bool> {
    let values = [
        Frac::ratio(0, 1),
        Frac::ratio(1, 3),
        Frac::ratio(2, 3),
        Frac::ratio(1, 1),
        Frac::ratio(1, 2),
    ];
    let shape = Shape::new(alloc, 5, 3, &values, &values, &values).ok()?;
    let answer = is_extreme(alloc, &shape).ok()?;
    let text = checked_proof(alloc, &shape).ok()?;
    Some(answer && text.as_slice().starts_with(b"gj-proof 1\nclaim extreme"))
}

#[test]
fn callers(rt: HostRuntime) {
    assert!(rt; mixed_integer_cut(rt.alloc()) == Some(true));
}
