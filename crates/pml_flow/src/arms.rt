//! Lists one behind another, by where each ends.

ghost use Rattle.std.specs.Prelude.{◌≡◌, [], map, slice_index_or, slice_range};
ghost use Rattle.pml_flow.specs.Arms.{begin_of, arm};

/// Where a list ends.
pub fn bound(bounds: &[usize], number: usize) -> usize
    ensures { result ≡ slice_index_or bounds.now number 0 }
{
    match bounds.get(number) {
        Some(bound) => *bound,
        None => 0,
    }
}

/// Where a list begins.
pub fn begin_of(bounds: &[usize], number: usize) -> usize
    ensures { result ≡ begin_of bounds.now number }
{
    if number == 0 {
        return 0;
    }
    bound(bounds, number - 1)
}

/// What stands from one position to before another.
pub fn between<T>(all: &[T], from: usize, to: usize) -> &[T]
    ensures { result.now ≡ slice_range all.now from to }
{
    let end = to.min(all.len());
    &all[from.min(end)..end]
}

/// One of the lists, empty where there is none.
pub fn arm<'s, T>(all: &'s [T], bounds: &[usize], number: usize) -> &'s [T]
    ensures { result.now ≡ arm all.now bounds.now number }
{
    between(all, begin_of(bounds, number), bound(bounds, number))
}

/// One of some numbers, or another.
fn number_of(numbers: &[usize], position: usize, other: usize) -> usize
    ensures { result ≡ slice_index_or numbers.now position other }
{
    match numbers.get(position) {
        Some(number) => *number,
        None => other,
    }
}

/// The list with one of these numbers, empty where there is no such number.
pub fn arm_of<'s, T>(all: &'s [T], bounds: &[usize], numbers: &[usize], position: usize) -> &'s [T]
    ensures { result.now ≡ slice_index_or (map (arm all.now bounds.now) numbers.now) position [] }
{
    arm(all, bounds, number_of(numbers, position, bounds.len()))
}
