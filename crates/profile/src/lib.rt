//! The profile: the limits of texts, models and sessions, in one place. The code and the definitions cite them; docs/DIFFERENCES.md tells
//! users.
#![tactic(auto)]

mod numbers;

pub use numbers::the_limits_are_these;

/// The cells that the variables of one owner may have: the globals, a proctype or a typedef. Also the elements that an array may have,
/// and the fields that all messages of one channel may have together.
pub const MOST_CELLS: u32 = 1_000_000;

/// The processes that may live at once.
pub const MOST_PROCESSES: usize = 255;

/// The channels that may live at once.
pub const MOST_CHANNELS: usize = 255;

/// The `mtype` names that a model may have.
pub const MOST_CONSTANTS: usize = 255;

/// The fields that a message may have.
pub const MOST_FIELDS: usize = 255;

/// The messages that a channel may be declared to hold.
pub const MOST_MESSAGES: u32 = 65_535;

/// The bits that an `unsigned` may have.
pub const MOST_BITS: u32 = 32;

/// The bytes that a text may have.
pub const MOST_TEXT_BYTES: usize = 1_048_576;

/// How many of `( [ { if do` may be open at once in a text.
pub const MOST_OPEN: u32 = 100;

/// The calls of inlines that may stand within one another.
pub const MOST_CALLS: u32 = 100;

/// The tokens that all that stands in place of calls of inlines may have together.
pub const MOST_REPLACED: usize = 200_000;

/// The tokens that may stand in a row without one of `; :: { } if fi do od` among them.
pub const MOST_IN_A_ROW: u32 = 1_000;

/// The statements that one step may take inside a `d_step`.
pub const MOST_DSTEP_STATEMENTS: usize = 10_000;

/// The bytes that a line of the choices may have, without its line feed.
pub const LINE_BYTES: usize = 80;

/// The lines that may answer one question badly: the last of them ends the session.
pub const BAD_LINES: u8 = 100;
