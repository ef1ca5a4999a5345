//! What `printf` and `printm` print: the bytes of a string, and a number by its name.
#![tactic(auto)]

mod digits;
pub mod string;

pub use run_values::place::name_of_number;
