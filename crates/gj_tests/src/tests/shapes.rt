//! Lists and functions by calls that no command makes.
use crate::tests::of_order_2;
use gj_frac::Frac;
use gj_shape::List;
use std::alloc::Global;

/// A list is the vector that it was made of, and so is its copy.
fn lists(alloc: Global) -> Option<bool> {
    let list = List::of(vec![in alloc; 3u32, 1, 2].ok()?);
    let copy = list.clone().ok()?;
    Some(copy == list && list.into_vec().as_slice() == [3, 1, 2].as_slice())
}

/// A function at twice its order.
fn refined(alloc: Global) -> Option<bool> {
    let finer = of_order_2(alloc, Frac::ratio(1, 1))?.refine(alloc, 2).ok()?;
    Some(finer.place() == 2 && finer.value_numerators() == [0, 1, 2, 1].as_slice())
}

/// Half the sum of two functions.
fn average(alloc: Global) -> Option<bool> {
    let first = of_order_2(alloc, Frac::ratio(1, 1))?;
    let second = of_order_2(alloc, Frac::ratio(1, 3))?;
    if first.order() != second.order() || first.place() != second.place() {
        return None;
    }
    let half_sum = first.average(alloc, &second).ok()?;
    Some(half_sum.value_numerators() == [0, 2].as_slice())
}

#[test]
fn shapes(rt: HostRuntime) {
    assert!(rt; lists(rt.alloc()) == Some(true));
    assert!(rt; refined(rt.alloc()) == Some(true));
    assert!(rt; average(rt.alloc()) == Some(true));
}
