//! Where no rule reads the tokens of a text, and what was wanted there.
#![tactic(auto)]

mod called;
mod classes;
mod declared;
mod elements;
mod forms;
pub mod kinds;
mod layout;
mod meant;
pub mod stopped;
mod syntax;
mod tables;
mod told;
mod trial;
mod tried;
mod typed;
mod unclosed;
mod within;
mod words;

pub use called::definition_of;
pub use syntax::of_syntax;
