//! How a run of the program ended.
ghost use Rattle.std.specs.Prelude.{◌≡◌};
ghost use Rattle.gj_top.specs.Code.{code_of};

/// How a run of the program ended: as its answer has it, or for want of memory, or since the sink
/// failed.
///
/// `Rejected` comes with the commands `check` and `derive` alone, `Wide` with `extreme` and `group`,
/// `NotContinuous` with `extreme`, `faces`, `mixed`, `problem`, `check`, `derive`, `fill`, `group`
/// and `restrict`, `NoFunction` with `cut`, `mixed`, `problem`, `check` and `derive`,
/// `NotSubadditive` with `fill`, `OrderLimit` with `times` and `group`, and `BadOrder` with
/// `restrict`.
#[derive(Clone, Copy, Debug, PartialEq, Eq)]
pub enum Status {
    /// The answer was written.
    Done,
    /// A rule of the checker failed, or a step of a derivation.
    Rejected,
    /// The words name no request.
    Words,
    /// The input is outside its form or a limit.
    Input,
    /// The source failed.
    ReadFault,
    /// The sink failed.
    WriteFault,
    /// There was no memory.
    Memory,
    /// A number passed its bound.
    Wide,
    /// The function is not continuous.
    NotContinuous,
    /// The function is not minimal.
    NoFunction,
    /// The table of the function is not subadditive.
    NotSubadditive,
    /// The order would pass its bound.
    OrderLimit,
    /// The function has no restriction of that order.
    BadOrder,
}

impl Status {
    /// The status with which the program ends: 0 to 12, in the order of the variants.
    pub fn code(self) -> u8
        ensures { result ≡ code_of self }
    {
        self as u8
    }
}
