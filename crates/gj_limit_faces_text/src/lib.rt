//! The text of the maximal additive faces and the covered intervals of a function that may jump.
//!
//! A face is additive if the slack is 0 on it: all its limits at the corners of the face, seen from
//! inside it, are 0. The text has the form of that of a continuous function, and lists such a face
//! if it is in the border of none of higher dimension.
#![tactic(auto)]

mod additive_row;
mod laws;
mod parts;
mod text;

pub use laws::one_text_of_faces;
pub use text::limit_faces_text;
