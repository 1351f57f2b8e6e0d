//! The cut of a problem by its multipliers, before and after it is rounded, and runs of
//! `problem` over streams in steps.
use gj_frac::Frac;
use gj_minimal::find_violation;
use gj_port::{MemSink, MemSource};
use gj_problem::{
    Column, Constraint, Entry, Inequality, Problem, RoundedCut, Sense, Sparse, rounded,
};
use gj_safe_cut::{SafeCut, function_safe_cut, gmic_safe_cut};
use gj_shape::{List, Shape};
use gj_top::{Status, run};
use std::alloc::Global;

/// A column that is at least 0.
fn column(is_whole: bool) -> Column {
    Column {
        is_whole,
        lower: Some(Frac::ratio(0, 1)),
        upper: None,
    }
}

/// A whole coefficient.
fn entry(column: u32, value: i64) -> Entry {
    Entry {
        column,
        value: Frac::ratio(value, 1),
    }
}

/// The sum of the entries is at most the right side.
fn at_most(entries: Vec<Entry>, right: i64) -> Constraint {
    Constraint {
        entries: List::of(entries),
        sense: Sense::AtMost,
        right: Frac::ratio(right, 1),
    }
}

/// x and y whole, z continuous, none below 0: 2x + y <= 7 and x + 3y - z <= 9.
fn problem(alloc: Global) -> Option<Problem> {
    let columns = vec![in alloc; column(true), column(true), column(false)].ok()?;
    let first = vec![in alloc; entry(0, 2), entry(1, 1)].ok()?;
    let second = vec![in alloc; entry(0, 1), entry(1, 3), entry(2, -1)].ok()?;
    let constraints = vec![in alloc; at_most(first, 7), at_most(second, 9)].ok()?;
    Some(Problem {
        columns: List::of(columns),
        constraints: List::of(constraints),
    })
}

/// The mixed-integer cut by the multipliers 3/5 and -1/5, which make the row of x.
fn cut_of(alloc: Global, problem: &Problem) -> Option<Inequality> {
    let multipliers = Sparse::of(alloc, &[Frac::ratio(3, 5), Frac::ratio(-1, 5)]).ok()?;
    let at_upper = [false, false, false];
    if !multipliers.has_length(2) {
        return None;
    }
    if problem.constraints.as_slice().len() != 2 || problem.columns.as_slice().len() != 3 {
        return None;
    }
    match gmic_safe_cut(alloc, problem, &multipliers, &at_upper) {
        Ok(SafeCut::Cut(cut)) => Some(cut),
        _ => None,
    }
}

/// Whether the inequality has these coefficients of x, y and z and this right side.
fn says(q: &Inequality, x: Frac, y: Frac, z: Frac, right: Frac) -> bool {
    match q.entries.as_slice() {
        [first, second, third] => {
            first.value == x && second.value == y && third.value == z && q.right == right
        }
        _ => false,
    }
}

/// The row is x + 3/5 s1 - 1/5 s2 + 1/5 z = 12/5, with s1 = 7 - 2x - y whole and s2 = 9 - x - 3y +
/// z not: so 2/3 s1 + 1/3 s2 + 1/2 z >= 1, which is -5/3 x - 5/3 y + 5/6 z >= -20/3.
fn mixed_integer(alloc: Global) -> Option<bool> {
    let cut = cut_of(alloc, &problem(alloc)?)?;
    let xy = Frac::ratio(-5, 3);
    Some(says(&cut, xy, xy, Frac::ratio(5, 6), Frac::ratio(-20, 3)))
}

/// The function of the mixed-integer cut for 2/5, the fractional part of 12/5.
fn function(alloc: Global) -> Option<Shape> {
    let values = [
        Frac::ratio(0, 1),
        Frac::ratio(1, 2),
        Frac::ratio(1, 1),
        Frac::ratio(2, 3),
        Frac::ratio(1, 3),
    ];
    Shape::new(alloc, 5, 2, &values, &values, &values).ok()
}

/// The function makes the cut that the mixed-integer cut makes.
fn by_function(alloc: Global) -> Option<bool> {
    let shape = function(alloc)?;
    if let Some(_violation) = find_violation(&shape) {
        return None;
    }
    if !shape.is_continuous() {
        return None;
    }
    let problem = problem(alloc)?;
    let multipliers = Sparse::of(alloc, &[Frac::ratio(3, 5), Frac::ratio(-1, 5)]).ok()?;
    let at_upper = [false, false, false];
    if !multipliers.has_length(2) {
        return None;
    }
    if problem.constraints.as_slice().len() != 2 || problem.columns.as_slice().len() != 3 {
        return None;
    }
    match function_safe_cut(alloc, &shape, &problem, &multipliers, &at_upper) {
        Ok(SafeCut::Cut(cut)) => {
            let xy = Frac::ratio(-5, 3);
            Some(says(&cut, xy, xy, Frac::ratio(5, 6), Frac::ratio(-20, 3)))
        }
        _ => None,
    }
}

/// In whole numbers it is -x - y + z >= -7: the coefficients go up, since all lower bounds are 0,
/// and the right side goes down.
fn rounded_cut(alloc: Global) -> Option<bool> {
    let problem = problem(alloc)?;
    let cut = cut_of(alloc, &problem)?;
    let Ok(RoundedCut::Cut(made)) = rounded(alloc, &problem, &cut, 1) else {
        return None;
    };
    let xy = Frac::ratio(-1, 1);
    Some(says(&made, xy, xy, Frac::ratio(1, 1), Frac::ratio(-7, 1)))
}

/// Two rows of x <= 7/2 with x whole and not below 0.
const PROBLEM: &[u8] =
    b"gj-problem 1\nrule gmic\ncolumn x whole 0 -\nconstraint c <= 7/2\nentry x 1\n\
    sum 1\nsum 2\nend\n";

/// Their cuts: x <= 3, and none, since twice the right side is whole.
const CUTS: &[u8] = b"gj-safe 1\nrule gmic\ncut -6\nterm x -2\nskip integral\nend\n";

/// Whether a run of `problem` ends so, and writes so much, over a source in steps of 7 and a sink in
/// steps of 10, of which the calls with these numbers fail.
fn ends(alloc: Global, read: u64, write: u64, ended: Status, written: &[u8]) -> Option<bool> {
    let words = vec![in alloc; String::from_str(alloc, "problem").ok()?].ok()?;
    let mut source = MemSource::with_step(alloc, PROBLEM, 7, &[read]).ok()?;
    let mut sink = MemSink::with_step(alloc, 100, 10, &[write]).ok()?;
    let status = run(alloc, words.as_slice(), &mut source, &mut sink);
    Some(status == ended && sink.taken() == written)
}

/// A text without its line `end`, with so many sums of 24,998 entries in a column and a constraint.
/// 40,000 are within 10^9 steps.
fn text_of_sums(alloc: Global, sums: u32) -> Option<Vec<u8>> {
    let front = b"gj-problem 1\nrule gmic\ncolumn x whole 0 -\nconstraint c <= 7/2\n".as_slice();
    let mut text = Vec::from_slice(alloc, front).ok()?;
    for _ in 0..24_998 {
        text.extend_from_slice(b"entry x 1\n").ok()?;
    }
    for _ in 0..sums {
        text.extend_from_slice(b"sum 1\n").ok()?;
    }
    Some(text)
}

/// Whether a text of so many sums is refused by these bytes.
fn is_refused(alloc: Global, sums: u32, written: &[u8]) -> Option<bool> {
    let words = vec![in alloc; String::from_str(alloc, "problem").ok()?].ok()?;
    let text = text_of_sums(alloc, sums)?;
    let mut source = MemSource::new(alloc, text.as_slice(), &[]).ok()?;
    let mut sink = MemSink::with_step(alloc, 100, 10, &[0]).ok()?;
    let status = run(alloc, words.as_slice(), &mut source, &mut sink);
    Some(status == Status::Input && sink.taken() == written)
}

#[test]
fn many_sums(rt: HostRuntime) {
    let alloc = rt.alloc();
    assert!(rt; is_refused(alloc, 40_000, b"refused line 65003 form\n") == Some(true));
    assert!(rt; is_refused(alloc, 40_001, b"refused line 65003 large\n") == Some(true));
}

#[test]
fn runs_on_a_problem(rt: HostRuntime) {
    let alloc = rt.alloc();
    assert!(rt; ends(alloc, 0, 0, Status::Done, CUTS) == Some(true));
    assert!(rt; ends(alloc, 3, 0, Status::ReadFault, b"read fault\n") == Some(true));
    assert!(rt; ends(alloc, 0, 2, Status::WriteFault, b"gj-safe 1\n") == Some(true));
}

#[test]
fn problems(rt: HostRuntime) {
    assert!(rt; mixed_integer(rt.alloc()) == Some(true));
    assert!(rt; by_function(rt.alloc()) == Some(true));
    assert!(rt; rounded_cut(rt.alloc()) == Some(true));
}
