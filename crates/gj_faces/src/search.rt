//! The search for a face in runs.
ghost use Rattle.std.specs.Prelude.{◌*◌, ◌<◌, ◌↔◌, IsTrue};
ghost use Rattle.gj_shape.specs.Additive.{IsAdditive};
ghost use Rattle.gj_shape.specs.Given.{IsOrder};
ghost use Rattle.gj_faces.specs.Runs.{InRuns, AreInOrder};

use crate::run::Run;
use gj_complex::{corner, corners};
use gj_shape::{Face, wrapped};

/// Whether each corner of the face is in one of the runs, indices modulo the order q, from 2 to
/// 1,000.
///
/// The face lies in a square (a, b) with a and b below q. The runs are in order: each is of indices
/// below q, and they ascend by a and then by b, with no b in two runs of one a. It takes no memory.
pub fn in_runs(runs: &[Run], q: u32, face: Face) -> bool
    requires order { IsOrder q }
    requires first { face.a < q }
    requires second { face.b < q }
    requires in_order { AreInOrder q runs.now }
    ensures { IsTrue result ↔ IsAdditive (InRuns q runs.now) face.kind face.a face.b }
{
    for index in 0..corners(face.kind) {
        let (i, j) = corner(face, index);
        if !is_in_runs(runs, q, i, j) {
            return false;
        }
    }
    true
}

/// Whether one of the runs holds the pair (i, j), indices modulo the order q.
fn is_in_runs(runs: &[Run], q: u32, i: u32, j: u32) -> bool
    requires order { IsOrder q }
    requires first { i < 2 * q }
    requires second { j < 2 * q }
    requires in_order { AreInOrder q runs.now }
    ensures { IsTrue result ↔ InRuns q runs.now i j }
{
    let (a, b) = (wrapped(i, q), wrapped(j, q));
    let mut low = 0;
    let mut high = runs.len();
    while low < high {
        let middle = low + (high - low) / 2;
        let run = runs[middle];
        if run.a < a || run.a == a && run.to < b {
            low = middle + 1;
        } else if a < run.a || b < run.from {
            high = middle;
        } else {
            return true;
        }
    }
    false
}
