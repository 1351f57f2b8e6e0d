//! The mixed-integer cut of a row by the call for one row, which no command makes.
ghost use Rattle.std.specs.Prelude.{IfOk};
ghost use Rattle.gj_row.specs.TableauLimits.{IsTableau, AreWithinLimits, numbers_of};

use gj_cut::{RowCut, Term, gmic_cut_row};
use gj_frac::Frac;
use gj_row::{Row, Tableau};
use std::alloc::Global;

/// The first row of a tableau.
fn first_row(tableau: &Tableau) -> Result<&Row, &'static str>
    requires { IsTableau tableau.now }
    ensures { IfOk result (λ row. AreWithinLimits (numbers_of row.now)) }
{
    tableau.rows.as_slice().first().ok_or("no row")
}

/// The cut of the first row, with f = 2/5: at 3/4 it is 1/4 over 3/5, and at -13/10, whose part is
/// 7/10, it is 3/10 over 3/5.
fn mixed_integer(alloc: Global) -> Option<bool> {
    let Ok(tableau) = Tableau::read(alloc, b"basic,rhs,s1,s2\nx3,2.4,0.75,-1.3") else {
        return None;
    };
    let Ok(row) = first_row(&tableau) else {
        return None;
    };
    let Ok(RowCut::Cut(terms)) = gmic_cut_row(alloc, row) else {
        return None;
    };
    let first = Term {
        column: 0,
        entry: Frac::ratio(3, 4),
        cut: Frac::ratio(5, 12),
    };
    let second = Term {
        column: 1,
        entry: Frac::ratio(-13, 10),
        cut: Frac::ratio(1, 2),
    };
    Some(terms.as_slice() == [first, second].as_slice())
}

#[test]
fn cuts(rt: HostRuntime) {
    assert!(rt; mixed_integer(rt.alloc()) == Some(true));
}
