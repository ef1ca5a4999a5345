//! Why a run stopped.

/// Why a run stopped.
#[derive(Clone, Copy, Debug, PartialEq, Eq)]
pub enum RunHalt {
    /// Where one of several moves is to be chosen.
    Choice,
    /// Where this process has no move.
    Blocked(usize),
    /// Where no move is left.
    End,
    /// Before a step that comes to a fault.
    Faulted,
    /// Where it was to stop.
    Met,
    /// Behind as many steps as were asked for.
    Steps,
    /// Behind as many steps as a walk may have.
    Limit,
}

impl RunHalt {
    /// Its name.
    pub fn words(self) -> &'static str {
        match self {
            RunHalt::Choice => "choice",
            RunHalt::Blocked(_) => "blocked",
            RunHalt::End => "end",
            RunHalt::Faulted => "fault",
            RunHalt::Met => "met",
            RunHalt::Steps => "steps",
            RunHalt::Limit => "step limit",
        }
    }
}
