//! The names of the rows.
use gj_shape::FaceKind;

/// A row of the linear system for the limits and values of a perturbation.
#[derive(Clone, Copy, Debug, PartialEq, Eq)]
pub enum LimitRow {
    /// The perturbation is 0 at f.
    F,
    /// The limit of its slack at the vertex (a/q, b/q) is 0, seen from inside a face of this kind,
    /// of which the vertex is this corner, from 0 on.
    Tight {
        kind: FaceKind,
        corner: u32,
        a: u32,
        b: u32,
    },
}
