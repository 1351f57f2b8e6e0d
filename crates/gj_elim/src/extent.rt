//! How far a row goes.
ghost use Rattle.std.specs.Prelude.{pos, ◌≡◌, ◌<◌, ◌≤◌, ◌+◌, ◌^◌, unsigned_abs};
ghost use Rattle.gj_elim.specs.Lazy.{IsExtent};

/// A bound of the absolute values of a row, if it is below 2^63, and the column from which on the
/// row is 0.
#[derive(Clone, Copy)]
pub(crate) struct Extent {
    pub(crate) bound: u64,
    pub(crate) end: usize,
}

/// The absolute value; 2^64 - 1 if it is above.
#[inline(always)]
pub fn size(x: i128) -> u64
    ensures { result < 2 ^ 63 → unsigned_abs x ≤ result }
{
    let size = x.unsigned_abs();
    if size < u128::from(u64::MAX) {
        size as u64
    } else {
        u64::MAX
    }
}

/// The extent of a row with one more entry, at this column.
fn extended(extent: Extent, x: i128, column: usize) -> Extent
    requires within { extent.end ≤ column }
    requires room { column + 1 < 2 ^ 64 }
    ensures more { extent.bound ≤ result.bound }
    ensures small { result.bound < 2 ^ 63 → unsigned_abs x ≤ result.bound }
    ensures within { result.end ≤ column + 1 }
    ensures later { extent.end ≤ result.end }
    ensures zero { result.end ≤ column → x ≡ pos 0 }
{
    if x == 0 {
        return extent;
    }
    Extent {
        bound: extent.bound.max(size(x)),
        end: column + 1,
    }
}

/// The extent of a row.
pub(crate) fn extent_of(row: &[i128]) -> Extent
    ensures { IsExtent result.bound result.end row.now }
{
    let mut extent = Extent { bound: 0, end: 0 };
    for i in 0..row.len() {
        extent = extended(extent, row[i], i);
    }
    extent
}
