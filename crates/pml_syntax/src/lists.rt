//! Lists of what was read.

ghost use Rattle.std.specs.Prelude.{◌≡◌, ◌++◌, ◌∷◌, [], IfOk};

use pml_tree::room::room_for;
use sqlite_items::Items;
use std::alloc::{AllocError, Global};

/// These items, and then one.
pub fn behind<T: Drop>(mut items: Items<T>, item: T) -> Result<Items<T>, AllocError>
    ensures { IfOk result (λ r. r ≡ items ++ item ∷ []) }
{
    items.push(item)?;
    Ok(items)
}

/// These items, and then those.
pub fn joined<T: Drop>(
    alloc: Global,
    items: Items<T>,
    more: Items<T>,
) -> Result<Items<T>, AllocError>
    ensures { IfOk result (λ r. r ≡ items ++ more) }
{
    let mut all = room_for(alloc, items.len().saturating_add(more.len()))?;
    all.append(items)?;
    all.append(more)?;
    Ok(all)
}
