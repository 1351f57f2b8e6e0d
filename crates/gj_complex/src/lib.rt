//! The complex of a function: its faces, their corners, and the limits of the slack there.
//!
//! A face is a kind and a square (a, b): a vertex, one of three edges, or one of two triangles.
//! `walk` gives all 6 q q faces of order q, each once, in walk order. `corners` and `corner` say
//! where the corners are, `slack_num` and `slack` are the limits of the slack there from inside the
//! face, and `projections` the intervals onto which it projects. `Square` has the numbers of one
//! square, for a loop over its faces.
//!
//! A caller brings a and b below the order. Nothing here allocates, and no call fails.
#![tactic(auto)]

mod all_faces;
mod face_walk;
mod faces;
mod intervals;
mod limits;
mod projecting;
mod square;

pub use all_faces::walk;
pub use face_walk::FaceWalk;
pub use faces::{corner, corners};
pub use intervals::Projections;
pub use limits::{slack, slack_num};
pub use projecting::projections;
pub use square::Square;
