//! Messages between an editor and a server: a head with `Content-Length`, an empty line, and so many bytes.
#![tactic(auto)]

mod frames;
mod front;
pub mod laws;

pub use frames::{Frames, NoMessage, framed};
