//! Lists with room for what is known to come, so that no memory is kept beyond need.

ghost use Rattle.std.specs.Prelude.{◌≡◌, [], IfOk};

use sqlite_items::Items;
use std::alloc::{AllocError, Global};

/// An empty list with room for this many.
pub fn room_for<T>(alloc: Global, count: usize) -> Result<Items<T>, AllocError>
    ensures { IfOk result (λ items. items ≡ []) }
{
    Ok(Items::from_vec(Vec::with_capacity(alloc, count)?))
}
