//! The faults of a run.
ghost use Rattle.std.specs.Prelude.{◌≡◌};
ghost use Rattle.diagnostics.specs.Numbers.{fault_number};

/// Why a step cannot be taken (Holzmann, *The SPIN Model Checker*, chapter 3; the numbers are this program's own).
#[derive(Clone, Copy, Debug, PartialEq, Eq)]
pub enum Fault {
    /// The condition of an `assert` is 0.
    AssertionViolated,
    /// A number is divided by 0.
    ZeroDivisor,
    /// An array has no such element.
    IndexOutOfRange,
    /// A number is no channel.
    NoSuchChannel,
    /// A message has more or fewer fields than its channel.
    WrongNumberOfFields,
    /// There are more channels than there may be.
    TooManyChannels,
    /// A statement in a `d_step` cannot be taken.
    DStepBlocks,
    /// A `d_step` takes too many statements.
    DStepTooLong,
}

impl Fault {
    /// Its number, from 1.
    pub fn number(self) -> u8
        ensures { result ≡ fault_number self }
    {
        match self {
            Fault::AssertionViolated => 1,
            Fault::ZeroDivisor => 2,
            Fault::IndexOutOfRange => 3,
            Fault::NoSuchChannel => 4,
            Fault::WrongNumberOfFields => 5,
            Fault::TooManyChannels => 6,
            Fault::DStepBlocks => 7,
            Fault::DStepTooLong => 8,
        }
    }
}
