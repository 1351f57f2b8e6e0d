//! Elimination: modulo 2^61 - 1 the rows (2^70, 1) and (2^70 - 1, 2^70) are (512, 1) and
//! (511, 512).
ghost use Rattle.std.specs.Prelude.{◌≡◌, length, All, IfOk};
ghost use Rattle.gj_frac.specs.Fraction.{Fits};

use gj_residue::{ListedRows, SettleFault, Settled, settle};
use gj_shape::List;
use std::alloc::{AllocError, Global};

/// A source of two rows.
fn listed(
    alloc: Global,
    columns: usize,
    first: &[i128],
    second: &[i128],
) -> Result<ListedRows, AllocError>
    requires first_length { length first.now ≡ columns }
    requires second_length { length second.now ≡ columns }
    requires first_fits { All Fits first.now }
    requires second_fits { All Fits second.now }
    ensures lengths { IfOk result (λ rows. All (λ row. length row ≡ columns) rows.all) }
    ensures entries { IfOk result (λ rows. All (All Fits) rows.all) }
{
    let mut rows = Vec::new(alloc);
    rows.push(List::of(Vec::from_slice(alloc, first)?))?;
    rows.push(List::of(Vec::from_slice(alloc, second)?))?;
    Ok(ListedRows::new(rows))
}

/// Two rows that pass 127 bits, and leave only 0.
fn by_residues(alloc: Global) -> Option<bool> {
    let Ok(mut rows) = listed(alloc, 2, &[1 << 70, 1], &[(1 << 70) - 1, 1 << 70]) else {
        return None;
    };
    let Ok(Settled::Residues(log)) = settle(alloc, 2, &mut rows) else {
        return None;
    };
    let [first, second] = log.as_slice() else {
        return None;
    };
    let is_first = first.number == 0
        && first.reduce.as_slice() == [].as_slice()
        && first.pivot == 0;
    Some(
        is_first
            && second.number == 1
            && second.reduce.as_slice() == [0].as_slice()
            && second.pivot == 1,
    )
}

/// Two rows of which only 0 is a solution, by plain elimination.
fn plain(alloc: Global) -> Option<bool> {
    let Ok(mut rows) = listed(alloc, 2, &[3, 2], &[3, 0]) else {
        return None;
    };
    let Ok(Settled::Plain(log)) = settle(alloc, 2, &mut rows) else {
        return None;
    };
    let [first, second] = log.as_slice() else {
        return None;
    };
    let is_first = first.reduce.as_slice() == [].as_slice() && first.pivot == 0;
    Some(is_first && second.reduce.as_slice() == [0].as_slice() && second.pivot == 1)
}

/// Rows that pass 127 bits, and of which residues keep fewer than there are columns.
fn is_too_wide(alloc: Global) -> Option<bool> {
    let Ok(mut rows) = listed(alloc, 3, &[1 << 70, 1, 0], &[(1 << 70) - 1, 1 << 70, 0]) else {
        return None;
    };
    Some(matches!(settle(alloc, 3, &mut rows), Err(SettleFault::Wide)))
}

#[test]
fn rows(rt: HostRuntime) {
    assert!(rt; by_residues(rt.alloc()) == Some(true));
    assert!(rt; plain(rt.alloc()) == Some(true));
    assert!(rt; is_too_wide(rt.alloc()) == Some(true));
}
