//! Bytes that others wrote, as a model's strings and names of files: as a terminal is shown them, and in lines of JSON.
#![tactic(auto)]

pub mod escaped;
pub mod shown;
