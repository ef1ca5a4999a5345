//! A session over any machine, any source of choices and any two sinks.
#![tactic(auto)]

pub mod choice;
mod converting;
mod course;
mod draft;
mod gathered;
pub mod laws;
mod line;
mod machine;
pub mod question;
mod refused;
mod step_numbers;
mod whole;
mod writing;

pub use converting::{Conversion, Held, convert};
pub use diagnostics::Stop;
pub use machine::{Machine, Report};
pub use profile::{BAD_LINES, LINE_BYTES};
pub use promela_session::choice::Answer;
pub use promela_session::ends::{Broken, Cause, End, Options};
pub use promela_session::form::{Stream, Version};
pub use refused::refuse;
pub use whole::{end_of, failure, play, run};
