//! What is made of an author's text, of the files that it includes and of the macros that a command line gives, in one process: the text that
//! is played, and where its lines stand in the author's files.
#![tactic(auto)]

pub mod disk;
pub mod given;
pub mod kinds;
pub mod lines;
pub mod made;
pub mod model;
pub mod refused;
pub mod report;
pub mod shown;
pub mod unprepared;
