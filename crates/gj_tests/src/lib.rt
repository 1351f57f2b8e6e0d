//! Calls of the libraries that take memory, each on its happy path with values by hand, since no
//! contract can say that memory is found; and a few values by hand of calls that take none. The
//! tests stand here and not in the crates of the calls, since a crate with tests is proved twice.
#![tactic(auto)]

#[cfg(test)]
mod tests;
