//! Whose names may stand in a unit.

ghost use Rattle.std.specs.Prelude.{◌≡◌};
ghost use Rattle.offered_names.specs.Owners.{begins_at, first_owner, owner_at};

use declared_names::declared::Declaration;

/// Whether a declaration is global, and stands at a place or behind it.
fn begins_at(head: usize, declaration: &Declaration) -> bool
    ensures { result ≡ begins_at head declaration.now }
{
    declaration.owner == 0 && head <= declaration.at
}

fn first_owner(declarations: &[Declaration]) -> usize
    ensures { result ≡ first_owner declarations.now }
{
    match declarations {
        [first, ..] => first.owner,
        [] => 0,
    }
}

/// The owner of what a unit declares that begins at a place: of what stands behind the unit's name, of all that a text declares. It is 0, if the unit
/// declares nothing.
pub fn owner_at(head: usize, declarations: &[Declaration]) -> usize
    ensures { result ≡ owner_at head declarations.now }
{
    for (i, declaration) in declarations.iter().enumerate() {
        if begins_at(head, declaration) {
            return first_owner(&declarations[i + 1..]);
        }
    }
    0
}
