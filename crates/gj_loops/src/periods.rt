//! Numbers twice over in lanes.
ghost use Rattle.std.specs.Prelude.{◌≡◌, ◌*◌, ◌<◌, length};
ghost use Rattle.gj_loops.specs.Lanes.{AreInRange, ArePeriods};

use crate::lane::Lane;

/// Writes the numbers into lanes twice, from lane 0 on, and the first of them once more behind the
/// last. The other lanes stay.
pub fn write_periods<L: Lane>(lanes: &mut [L], numbers: &[i64])
    requires some { 0 < length numbers.now }
    requires room { 2 * length numbers.now < length lanes.old }
    requires range { AreInRange L.least L.bound numbers.now }
    ensures count { length lanes.new ≡ length lanes.old }
    ensures periods { ArePeriods L.number L.least L.bound lanes.new numbers.now }
{
    let count = numbers.len();
    for i in 0..count {
        let lane = L::of(numbers[i]);
        lanes[i] = lane;
        lanes[count + i] = lane;
    }
    lanes[2 * count] = L::of(numbers[0]);
}
