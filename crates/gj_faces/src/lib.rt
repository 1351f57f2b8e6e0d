//! Additive faces of a continuous function, and its maximal ones.
//!
//! A pair (a, b) is tight if the values at a/q and b/q add up to the value at (a + b)/q, and a face
//! is additive if each of its corners is tight. `runs` gives the tight pairs as runs of
//! neighbouring b, `in_runs` tests a face on them, `is_additive` tests it on the function, and
//! `maximal` lists the additive faces that lie in the closure of no additive face of higher
//! dimension; `push_maximal_row` lists those of one row of squares.
#![tactic(auto)]

mod additive;
mod alone;
mod lanes;
mod laws;
mod maximal_faces;
mod run;
mod search;
mod tight_pairs;
mod tight_runs;
mod triangles;

pub use additive::is_additive;
pub use laws::additive_by_runs;
pub use maximal_faces::{maximal, push_maximal_row};
pub use run::Run;
pub use search::in_runs;
pub use tight_pairs::TightPairs;
pub use tight_runs::runs;
pub use triangles::count_additive_triangles;
