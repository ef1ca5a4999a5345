//! Lines of two texts.
use crate::cut::cut;
use std::alloc::{AllocError, Global};

/// A line `THIS => THAT`, or `THIS`, which has nothing for THAT.
#[derive(Clone, Copy)]
pub struct Pair {
    pub this: &'static str,
    pub that: &'static str,
}

impl Pair {
    /// What a line says.
    pub fn of(line: &'static str) -> Pair {
        let (this, that) = cut(line, " => ");
        Pair {
            this,
            that: that.unwrap_or(""),
        }
    }
}

/// The lines of a text. They stay as long as the program runs.
pub fn pairs(alloc: Global, text: &'static str) -> Result<&'static [Pair], AllocError> {
    let pairs: Vec<Pair> = text.lines().map(Pair::of).collect(alloc)?;
    Ok(pairs.leak())
}
