//! Inner loops over whole numbers, which the decision and the checker share.
//!
//! - Numbers in lanes: the fewer bits a lane has, the more lanes are tested at once. [`Lane`] is a
//!   number type of some width. [`UnsignedLane`] finds whether sums are too small, and
//!   [`SignedLane`] which of 64 sums are equal to others. [`write_periods`] writes numbers into
//!   lanes twice over, so that no index up to twice their count has to be reduced.
//! - Sets of indices below 1,024, as words of 64 bits. Contracts speak of indices alone: `has set i`
//!   says whether the index i is in the set, for each natural number i. Whole sets are joined, cut,
//!   moved and counted without a loop over their indices. `of_sums` makes the set of the places at
//!   which a value and a fixed number add up to another value, 64 places at a time.
//! - One step of elimination over whole numbers of 128 bits: a row less a multiple of a kept row,
//!   divided by the greatest common divisor of its entries. [`reduce_by`] makes the step, and
//!   [`make_kept`] makes of what is left of a row a row that can be kept. Which rows are taken, in
//!   which order and with which pivots, is no matter of this crate.
//!
//! Nothing here allocates.
#![tactic(auto)]

mod combined;
mod counted;
mod index_set;
mod lane;
mod moved;
mod narrow;
mod periods;
mod signed;
mod step;
mod sums;
mod unsigned;

pub use index_set::{IndexSet, LIMIT};
pub use lane::Lane;
pub use narrow::product;
pub use periods::write_periods;
pub use signed::SignedLane;
pub use step::{common_divisor, make_kept, reduce_by};
pub use unsigned::UnsignedLane;
