//! Covered intervals of a function that may jump.
//!
//! Interval i is from i/q to (i + 1)/q. Two intervals are joined along an edge of a face if the
//! slack tends to 0 at both ends of the edge, seen from inside the face: the edge itself, or one of
//! the two triangles that have it. A triangle on which the slack is 0 covers its three projections.
//! [`cover_by_limits`] finds the covered intervals, their components, the lines that show why they
//! are covered, and the class of the least uncovered interval. Of a continuous function it finds
//! what `gj_cover` finds.
#![tactic(auto)]

mod class;
mod corners;
mod covering;
mod faces;
mod progress;
mod reached;
mod table;

pub use covering::cover_by_limits;
