//! Requests, and why words are none.

ghost use Rattle.std.specs.Prelude.{◌≡◌};
ghost use Rattle.gj_words.specs.declared.requests.WordFault.TheVariants.{Memory};

use std::alloc::AllocError;
use thiserror::Error;

/// A command of the program.
#[derive(Clone, Copy, Debug, PartialEq, Eq)]
pub enum Command {
    /// Decides whether a function is minimal.
    Minimal,
    /// Decides whether a function is extreme.
    Extreme,
    /// Makes a cut of each row of a tableau.
    Cut,
    /// Checks a proof text or a derivation.
    Check,
    /// Prints a function in its one canonical spelling.
    Show,
    /// Prints the maximal additive faces and the covered intervals of a function.
    Faces,
    /// Decides a function that no text has to give, of order 2(2n + 1) for this number n, from 1
    /// to 249.
    Demo(u32),
    /// Makes a cut of each row of a tableau that has continuous columns.
    Mixed,
    /// Makes a cut of each row that multipliers make of a mixed-integer program.
    Problem,
    /// Finds the claims of the steps of a derivation that lack them.
    Derive,
    /// Prints the two-slope fill-in of a function by its breakpoints.
    Fill,
    /// Decides whether the table of a function's own order is extreme.
    Group,
    /// Prints the function with the value of a function at n x, for the first number n, from 1 to
    /// 500, and with the place (f + j)/n, for the second number j, which is below n.
    Times(u32, u32),
    /// Prints the function with the value of a function at -x, and with the place 1 - f.
    Mirror,
    /// Prints the function of this order, from 2 to 1,000, that has the values of a continuous
    /// function at its grid points.
    Restrict(u32),
}

/// What the words ask for.
#[derive(Clone, Copy, Debug, PartialEq, Eq)]
pub struct Request {
    /// The command.
    pub command: Command,
    /// Whether functions are read, and answers printed, as JSON.
    pub json: bool,
    /// Whether functions that jump are answered by their limits.
    pub jumps: bool,
}

/// Why words are no request.
#[derive(Debug, Drop, Error)]
pub enum WordFault {
    /// No request is spelled so.
    #[error("the words are no command")]
    Refused,
    /// There was no memory.
    #[error("out of memory")]
    Memory(AllocError),
}

impl From<AllocError> for WordFault {
    ghost from_gives = { λ e f. f ≡ Memory e };

    fn from(error: AllocError) -> WordFault {
        WordFault::Memory(error)
    }
}
