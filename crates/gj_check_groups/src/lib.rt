//! The separate checker's rules on the rows of a proof that a function is extreme.
//!
//! A group of lines names a row of the linear system for the slopes of a perturbation, reduces it
//! by the rows that the groups before it keep, and keeps what is left. `failure_in_groups` takes
//! the rules `row`, `reduce`, `size` and `pivot` of all groups in the order of their lines, and
//! answers the first that fails; in a proof by residues it takes `pivot` as that proof has it, and
//! no `size`. The rule `rank`, that there are as many groups as components, is not among them. It
//! calls nothing of the elimination that finds such rows: the step on two rows of residues and the
//! counts of a row, the natural loops for their definitions, are written out here too. The step on
//! two rows of whole numbers is that of `gj_loops`, which both call.
#![tactic(auto)]

mod begin;
mod failure;
mod group;
mod groups;
mod keep;
mod modulo;
mod residue;
mod rises;
mod step;

pub use failure::{GroupFailure, GroupRule};
pub use groups::failure_in_groups;
pub use modulo::inverse_modulo;
pub use residue::{less_product, product, residue_of};
