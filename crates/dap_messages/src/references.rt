//! The numbers by which a client asks for variables.

/// What a number stands for.
#[derive(Clone, Copy, Debug, PartialEq, Eq)]
pub enum Listed {
    Globals,
    Channels,
    Moves,
    /// The variables of the process with this number.
    Locals(usize),
    /// What it waits for.
    Waits(usize),
    /// The cells of a variable, by the number of its frame and its own.
    Cells(usize, usize),
    /// The messages of the channel with this number.
    Messages(usize),
    Nothing,
}

const GLOBALS: usize = 1;

const CHANNELS: usize = 2;

const MOVES: usize = 3;

const LOCALS: usize = 1_000;

const WAITS: usize = 2_000;

const VARIABLES: usize = 100_000;

const MESSAGES: usize = 100_000_000;

// So many variables of a frame have a number at most.
const MOST_VARIABLES: usize = 100_000;

/// The number that stands for something.
pub fn reference_of(shown: Listed) -> usize {
    match shown {
        Listed::Globals => GLOBALS,
        Listed::Channels => CHANNELS,
        Listed::Moves => MOVES,
        Listed::Locals(process) => LOCALS.saturating_add(process),
        Listed::Waits(process) => WAITS.saturating_add(process),
        Listed::Cells(frame, variable) => {
            if variable < MOST_VARIABLES {
                frame
                    .saturating_add(1)
                    .saturating_mul(MOST_VARIABLES)
                    .saturating_add(variable)
            } else {
                0
            }
        }
        Listed::Messages(number) => MESSAGES.saturating_add(number),
        Listed::Nothing => 0,
    }
}

/// What a number stands for.
pub fn shown_by(reference: usize) -> Listed {
    match reference {
        GLOBALS => Listed::Globals,
        CHANNELS => Listed::Channels,
        MOVES => Listed::Moves,
        _ if reference >= MESSAGES => Listed::Messages(reference - MESSAGES),
        _ if reference >= VARIABLES => Listed::Cells(
            reference / MOST_VARIABLES - 1,
            reference % MOST_VARIABLES,
        ),
        _ if reference >= WAITS => Listed::Waits(reference - WAITS),
        _ if reference >= LOCALS => Listed::Locals(reference - LOCALS),
        _ => Listed::Nothing,
    }
}
