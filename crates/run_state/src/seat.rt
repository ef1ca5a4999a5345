//! Where a process stands.

ghost use Rattle.std.specs.Prelude.{◌≡◌, slice_get};
ghost use Rattle.std.specs.Option.{option_copied};

/// A process: the number of its proctype in the model, and the node of its graph where it stands.
#[derive(Clone, Copy, Debug, PartialEq, Eq)]
pub struct Seat {
    pub sort: usize,
    pub node: usize,
}

/// The process with this number.
pub fn seat_at(seats: &[Seat], process: usize) -> Option<&Seat>
    ensures { option_copied result ≡ slice_get seats.now process }
{
    seats.get(process)
}
