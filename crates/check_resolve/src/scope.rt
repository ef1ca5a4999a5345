//! Where a name is looked up.

ghost use Rattle.std.specs.Prelude.{◌≡◌};

use check_names::table::Table;

/// Where a name is looked up: among what the whole text declares, among what is declared before it, and whose it is.
#[derive(Clone, Copy)]
pub struct Scope<'s, 'a, 'b> {
    /// What the whole text declares.
    pub all: &'s Table<'a>,
    /// What is declared before.
    pub table: &'s Table<'b>,
    /// Whose names they are: 0, or the number of a proctype or typedef among the units.
    pub owner: usize,
}

/// Whose names they are, among all that the text declares.
#[derive(Clone, Copy)]
pub struct Whose<'s, 'a> {
    /// What the whole text declares.
    pub all: &'s Table<'a>,
    /// 0, or the number of a proctype or typedef among the units.
    pub owner: usize,
}

impl<'s, 'a> Whose<'s, 'a> {
    /// Where their names are looked up behind these declarations.
    pub fn within<'b>(self, table: &'s Table<'b>) -> Scope<'s, 'a, 'b>
        ensures all { result.all.now ≡ self.entry.all.now }
        ensures table { result.table.now ≡ table.now }
        ensures owner { result.owner ≡ self.entry.owner }
    {
        Scope {
            all: self.all,
            table,
            owner: self.owner,
        }
    }
}
