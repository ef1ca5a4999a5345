// What a command line asks for.
#![tactic(auto)]

mod help;
mod options;
mod words;

pub use options::Arguments;
pub use words::arguments;
