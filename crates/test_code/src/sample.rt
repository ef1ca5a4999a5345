//! Three small machines.

/// One process that sets `x` to 1 or 2, for some rounds or without end, and then dies.
#[derive(Clone, Copy)]
pub struct SettingRounds {
    /// Whether it goes on without end.
    pub endless: bool,
    /// The rounds that are left, where it does not.
    pub left: u32,
    /// The variable.
    pub x: u8,
    /// Whether the last step changed it.
    pub changed: bool,
    /// Whether the process is dead.
    pub dead: bool,
}

/// Two processes of one assignment each. Each is at 0 before it, at 1 behind it, and at 2 where it is dead.
#[derive(Clone, Copy)]
pub struct ProcessPair {
    /// Where the first process is.
    pub a: u8,
    /// Where the second one is.
    pub b: u8,
}

/// A machine of the tests. The last one counts down: one or two are taken away, a star is printed, and two from two is a
/// fault.
#[derive(Clone, Copy)]
pub enum Sample {
    /// A process that sets a variable.
    Rounds(SettingRounds),
    /// Two processes.
    Pair(ProcessPair),
    /// A countdown, from this number.
    Countdown(u32),
    /// A countdown that has stopped at a move.
    Stopped(u8, session::Stop),
}
