//! What a session is asked for, and how it ends.

ghost use Rattle.std.specs.Prelude.{◌≡◌};
ghost use Rattle.promela_session.specs.declared.ends.Broken.TheVariants.{Memory};

use diagnostics::{Fault, Refusal};
use std::alloc::{AllocError, AllocFailed};

/// What is printed of each step, and how many steps are taken at most.
#[derive(Clone, Copy, Debug, PartialEq, Eq)]
pub struct Options {
    /// Whether each step has its line.
    pub steps: bool,
    /// Whether changed global variables are shown.
    pub globals: bool,
    /// Whether changed local variables are shown.
    pub locals: bool,
    /// Whether a message that is sent to a full channel is lost; else the sender waits.
    pub lossy: bool,
    /// The most steps that are taken.
    pub limit: u32,
}

/// Why a session ended.
#[derive(Clone, Copy, Debug, PartialEq, Eq)]
pub enum Cause {
    /// No move is left, and each process may end where it is.
    Valid,
    /// The user said `q`.
    Quit,
    /// No move is left, and some process may not end where it is.
    Invalid,
    /// A step was a fault of the run.
    Fault(Fault),
    /// The model was refused, at this line of its text, or 0 where the refusal has none.
    Refused(Refusal, u32),
    /// The choices ended at a question.
    ChoicesEnded,
    /// A line of the choices has more than 80 bytes.
    LineTooLong,
    /// A question was answered badly a hundred times.
    BadChoices,
    /// A line of choices of the second version does not fit the moves that there are.
    Misfit,
    /// As many steps were taken as the options allow.
    StepLimit,
    /// The source of the choices failed.
    SourceFailed,
    /// The sink of the output failed.
    OutFailed,
    /// The sink of the record failed.
    RecordFailed,
    /// Memory was refused.
    Memory,
}

/// How a session ended.
#[derive(Clone, Copy, Debug, PartialEq, Eq)]
pub struct End {
    /// The exit status: 0 a valid end or `q`, 1 an invalid end, 2 a fault, 3 a refused model, 5 stopped, 6 a device or memory failed.
    pub status: u8,
    /// How many steps succeeded.
    pub steps: u32,
    /// Why it ended.
    pub cause: Cause,
}

/// What broke a session off.
#[derive(Clone, Copy, Debug, PartialEq, Eq)]
pub enum Broken {
    /// The source of the choices failed.
    Source,
    /// The sink of the output failed.
    Out,
    /// The sink of the record failed.
    Record,
    /// Memory was refused.
    Memory,
}

impl From<AllocError> for Broken {
    ghost from_gives = { λ _ e. e ≡ Memory };

    fn from(_: AllocError) -> Self {
        Broken::Memory
    }
}

impl<T: Drop> From<AllocFailed<T>> for Broken {
    ghost from_gives = { λ _ e. e ≡ Memory };

    fn from(_: AllocFailed<T>) -> Self {
        Broken::Memory
    }
}
