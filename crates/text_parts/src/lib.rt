//! An open text, as an editor sees it, by its bytes and tokens alone: places by lines and columns, the parts that are folded, coloured and left out, and the
//! calls in which a place stands.
#![tactic(auto)]

mod bodies;
mod calls;
mod definitions;
mod folds;
mod going;
pub mod laws;
mod parts;
mod places;
mod rest;
mod written;

pub use calls::{PartialCall, call_around};
pub use definitions::{TextPart, definition, heading, parameters};
pub use folds::{Fold, folds_of};
pub use going::gone;
pub use parts::{Coloured, coded};
pub use places::{ColumnUnit, EditorPlace, offset_of, place_of, units};
pub use rest::rest_of;
