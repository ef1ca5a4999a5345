//! A store is a map from places to numbers, and its log leads back.

ghost use Rattle.std.specs.Prelude.{◌≡◌, ◌<◌, ℕ, List, [], map, length};
ghost use Rattle.promela_process.specs.declared.place.Place.{Place};
ghost use Rattle.promela_process.specs.Store.{Frame, size_at};
ghost use Rattle.pml_store.specs.Writing.{Contents, HasPlace, before, OnePlaceChanges, LeadsBack};

/// To store a number changes what one place holds, and no other.
pub fn one_place()
    ensures { OnePlaceChanges }
{}

/// A place whose cell is one of its variable's is there.
pub fn has_place()
    ensures { (frames : List Frame) (p : Place) → p.cell < size_at frames p.frame p.variable → HasPlace frames p }
{}

/// The log leads back to the numbers before it.
pub fn leads_back()
    ensures set { LeadsBack }
    ensures forgotten { (frames : List Frame) (most : ℕ) → before (record { frames = frames; written = []; most = most }) ≡ frames }
    ensures shape { (now : Contents) → map (map length) (before now) ≡ map (map length) now.frames }
{}
