//! Names that may stand at a place of a text: what the tokens before it ask for, and which of the text's declarations that are.
#![tactic(auto)]

mod asked;
mod gaps;
mod offers;
mod owners;
mod references;
mod standing;

pub use asked::{Fitting, asked_behind};
pub use gaps::{gap_end, gap_start, mended};
pub use offers::{SoughtNames, add_offered, name_in};
pub use owners::owner_at;
pub use references::form_behind;
pub use standing::{PlaceStanding, stands};
