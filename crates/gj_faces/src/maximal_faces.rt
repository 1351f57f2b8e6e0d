//! The maximal additive faces.
ghost use Rattle.std.specs.Prelude.{◌≡◌, ◌+◌, ◌*◌, ◌<◌, ◌≤◌, ◌↔◌, [], ◌∷◌, IfOk, OnOk, IsTrue};
ghost use Rattle.std.specs.Prelude.{vec_capacity, vec_len};
ghost use Rattle.gj_shape.specs.FunctionData.{FunctionData, IsContinuous};
ghost use Rattle.gj_shape.specs.Limits.{greatest_order};
ghost use Rattle.gj_shape.specs.Table.{IsMinimal};
ghost use Rattle.gj_shape.specs.WalkOrder.{faces_of_square};
ghost use Rattle.gj_faces.specs.Listed.{AreMaximalFaces, HoldAdditive, TellTightPairs, IsMaximalIn};
ghost use Rattle.gj_faces.specs.Added.{AddsMaximal, faces_of_row};
ghost use Rattle.gj_faces.specs.Alone.{AreAlone};
ghost use Rattle.gj_faces.specs.TightPairs.{AreTightPairsOf};

use crate::alone::Alone;
use crate::tight_pairs::TightPairs;
use gj_shape::{Face, FaceKind, Shape};
use std::alloc::{AllocError, Global};

/// The maximal additive faces of the continuous function, in walk order.
///
/// A face is maximal if it is additive and lies in the closure of no additive face of higher
/// dimension, indices modulo the order. So the closure of each additive face lies in the closures
/// of the listed ones; and if the function is minimal, these hold all pairs at which the slack is
/// 0, and no others.
pub fn maximal(alloc: Global, shape: &Shape) -> Result<Vec<Face>, AllocError>
    requires { IsContinuous shape.now }
    ensures faces { IfOk result (λ faces. AreMaximalFaces shape.now faces.items) }
    ensures closures { IfOk result (λ faces. HoldAdditive shape.now faces.items) }
    ensures tight_pairs { IfOk result (λ faces. IsMinimal shape.now →
        TellTightPairs shape.now faces.items) }
{
    let pairs = TightPairs::new(alloc, shape)?;
    let mut faces = Vec::new(alloc);
    for a in 0..shape.order() {
        push_maximal_row(&mut faces, shape, &pairs, a)?;
    }
    Ok(faces)
}

/// Adds the maximal additive faces of the squares (a, b) with this a and b below the order, in walk
/// order.
///
/// The pairs are the function's tight pairs. So all rows in turn add what `maximal` lists, and a
/// caller that is done with a row can empty the list.
pub fn push_maximal_row(
    faces: &mut Vec<Face>,
    shape: &Shape,
    pairs: &TightPairs,
    a: u32,
) -> Result<(), AllocError>
    requires pairs { AreTightPairsOf shape.now pairs.now }
    requires within { a < shape.now.order }
    ensures { OnOk result (AddsMaximal shape.now
        (faces_of_row shape.now.order a) faces.old.items faces.new.items) }
{
    faces.reserve(2 * shape.order() as usize)?;
    let alone = Alone::of(pairs, shape, a);
    let mut from = 0;
    while let Some(b) = alone.any.first_from(from) {
        push_square(faces, &alone, a, b as u32);
        from = b + 1;
    }
    Ok(())
}

/// Adds the maximal faces of the square (a, b): one that is no triangle, or at most two triangles.
#[inline]
fn push_square(faces: &mut Vec<Face>, alone: &Alone, a: u32, b: u32)
    requires within { b < greatest_order }
    requires room { vec_len faces.old + 2 ≤ vec_capacity faces.old }
    ensures added { (f : FunctionData) → AreAlone f a alone.now → b < f.order →
        AddsMaximal f (faces_of_square a b) faces.old.items faces.new.items }
    ensures few { vec_len faces.new ≤ vec_len faces.old + 2 }
    ensures capacity { vec_capacity faces.new ≡ vec_capacity faces.old }
{
    let place = b as usize;
    if alone.edges.contains(place) {
        let kind = alone.edge_kind(b);
        faces.push_reserved(Face { kind, a, b });
    } else {
        push_if(faces, alone.lower.contains(place), FaceKind::Lower, a, b);
        push_if(faces, alone.upper.contains(place), FaceKind::Upper, a, b);
    }
}

/// Adds the face if it is maximal.
#[inline]
fn push_if(faces: &mut Vec<Face>, is_maximal: bool, kind: FaceKind, a: u32, b: u32)
    requires room { vec_len faces.old < vec_capacity faces.old }
    ensures added { (f : FunctionData) →
        IsTrue is_maximal ↔ IsMaximalIn f (record { kind = kind; a = a; b = b }) →
        AddsMaximal f (record { kind = kind; a = a; b = b } ∷ []) faces.old.items faces.new.items }
    ensures few { vec_len faces.new ≤ vec_len faces.old + 1 }
    ensures capacity { vec_capacity faces.new ≡ vec_capacity faces.old }
{
    if is_maximal {
        faces.push_reserved(Face { kind, a, b });
    }
}
