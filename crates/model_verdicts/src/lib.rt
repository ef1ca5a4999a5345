//! Whether `play` plays a text, and what it says of changes of one: why a text is refused, what mends it, and the text with a name renamed.
#![tactic(auto)]

mod alike;
mod all;
mod better;
mod exchange;
mod names;
mod offered;
mod parts;
pub mod renaming;
mod replaced;
mod syntax;
mod verdict;

pub use all::{MOST_BYTES, MOST_VERDICTS, most_for, verdicts_of};
pub use exchange::{ExchangedPart, Words, WrittenSign, exchanged, words_of};
pub use offered::{SelectedPart, remedy_at};
pub use verdict::{Verdict, verdict_of};
