//! The operators of fractions through their trait.
ghost use Rattle.std.specs.Prelude.{◌≡◌};

use gj_frac::{ExactNumber, Frac};

/// Two numbers added in both orders, which gives one sum.
fn sums_in_both_orders<T: ExactNumber>(x: T, y: T) -> (T, T)
    requires { T.can_add x y }
    ensures { result.0 ≡ result.1 }
{
    (x + y, y + x)
}

/// 1/6 and 1/3 are 1/2 in both orders.
#[test]
fn sums_commute(rt: HostRuntime) {
    let (sum, turned) = sums_in_both_orders(Frac::ratio(1, 6), Frac::ratio(1, 3));
    assert!(rt; sum == Frac::ratio(1, 2));
    assert!(rt; turned == sum);
}
