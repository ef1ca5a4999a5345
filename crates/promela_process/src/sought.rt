//! What a receive asks of a field.

use crate::place::Place;
use pml_program::form::Form;

/// What a receive asks of one field.
#[derive(Clone, Copy, PartialEq, Eq, Debug)]
pub enum Sought {
    /// This number.
    Exactly(i32),
    /// Any number, of which this place stores what its type keeps.
    Into(Place, Form),
    Anything,
}
