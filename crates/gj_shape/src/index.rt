//! Indices modulo the order.
ghost use Rattle.std.specs.Prelude.{◌≡◌, ◌<◌, ◌*◌, ◌%◌};

/// The index modulo the order, from 0 to the order less 1.
///
/// The index is below twice the order, so that no division is needed.
pub fn wrapped(index: u32, order: u32) -> u32
    requires { index < 2 * order }
    ensures value { result ≡ index % order }
    ensures below { result < order }
{
    if index < order { index } else { index - order }
}
