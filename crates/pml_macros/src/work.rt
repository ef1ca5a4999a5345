//! What is known while calls are replaced.

ghost use Rattle.std.specs.Prelude.{◌≡◌};

use crate::book::Book;
use std::alloc::Global;

/// The texts of tokens, and how many tokens may still be put in place of calls.
#[derive(Drop)]
pub struct Work {
    pub book: Book,
    pub left: usize,
}

impl Work {
    /// No text yet, and so many tokens.
    pub fn new(alloc: Global, left: usize) -> Work
        ensures { result.left ≡ left }
    {
        Work {
            book: Book::new(alloc),
            left,
        }
    }
}
