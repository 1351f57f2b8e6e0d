//! Tools of proof that are not about this field. The crate has no code that runs.
//!
//! `specs/` has what contracts above cite: the first element of a list that fails, the greatest
//! common divisor as a function, and the least common multiple. `proofs/` has the lemmas: laws of
//! whole numbers (`Integers`), the lesser of two (`Lesser`), identities of sums and products by a
//! normal form, in each commutative ring (`Rings`) and for whole numbers (`Ring`), ratios by cross
//! products (`Ratios`), divisors and lowest terms (`Divisors`), quotients and remainders
//! (`Quotients`), lists made by ranges (`Lists`), options and tests (`Choices`), and where the first
//! that fails stands (`FirstThatFails`).
//!
//! Any crate may cite a lemma; what its contracts promise rests on the definitions alone.
#![tactic(auto)]

mod laws;

pub use laws::one_least_common_multiple;
