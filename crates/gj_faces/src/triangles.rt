//! How many triangles are additive.
ghost use Rattle.std.specs.Prelude.{◌≡◌, ◌<◌, ◌≤◌, List, length};
ghost use Rattle.gj_shape.specs.declared.faces.Face.{Face};
ghost use Rattle.gj_faces.specs.Added.{faces_of_row};
ghost use Rattle.gj_faces.specs.Picked.{ArePicked};
ghost use Rattle.gj_faces.specs.TightPairs.{AreTightPairsOf};
ghost use Rattle.gj_faces.specs.Triangles.{AreAdditiveTriangles, IsAdditiveTriangle};

use crate::tight_pairs::TightPairs;
use gj_shape::{Shape, wrapped};

/// How many triangles of the function are additive.
///
/// The pairs are the function's tight pairs. It takes no memory.
pub fn count_additive_triangles(shape: &Shape, pairs: &TightPairs) -> u32
    requires { AreTightPairsOf shape.now pairs.now }
    ensures { (triangles : List Face) × AreAdditiveTriangles shape.now triangles ×
        (result ≡ length triangles) }
{
    let mut count = 0;
    for a in 0..shape.order() {
        count += count_in_row(shape, pairs, a);
    }
    count
}

/// How many triangles of the squares (a, b) with this a are additive.
fn count_in_row(shape: &Shape, pairs: &TightPairs, a: u32) -> u32
    requires pairs { AreTightPairsOf shape.now pairs.now }
    requires within { a < shape.now.order }
    ensures count { (triangles : List Face)
        × ArePicked (IsAdditiveTriangle shape.now) (faces_of_row shape.now.order a) triangles ×
        (result ≡ length triangles) }
    ensures few { result ≤ 2048 }
{
    let order = shape.order();
    // in a plane with a to the east and b to the north
    let middle = pairs.row(a);
    let east = pairs.row(wrapped(a + 1, order));
    let north = middle.turned_down(order as usize);
    let north_east = east.turned_down(order as usize);
    let edges = east.and(&north);
    let lower = edges.and(middle).count();
    let upper = edges.and(&north_east).count();
    (lower + upper) as u32
}
