//! What a statement stores.

use promela_process::place::Place;

/// Where a number goes.
#[derive(Clone, Copy, PartialEq, Eq, Debug)]
pub struct Goes {
    pub place: Place,
    pub number: i32,
}
