//! What holds of calls, and of the numbers of coloured parts.

ghost use Rattle.std.specs.Prelude.{◌≡◌, ℕ, List, map};
ghost use Rattle.text_parts.specs.Arguments.{CallsAreFound};
ghost use Rattle.text_parts.specs.declared.places.ColumnUnit.{ColumnUnit};
ghost use Rattle.text_parts.specs.declared.parts.Coloured.{Coloured};
ghost use Rattle.text_parts.specs.Going.{start, gone};
ghost use Rattle.text_parts.specs.Coded.{coded, decoded, place_of, Rises};

/// A place behind arguments of a call is in that call, whatever stands before it, and as many commas are counted as stand between them.
pub fn calls_are_found()
    ensures { CallsAreFound }
{}

/// An editor that adds the numbers up finds each part at its place: that behind the bytes before it.
pub fn numbers_lead_to_places()
    ensures { (u : ColumnUnit) (text : List ℕ) (parts : List Coloured) → Rises text 0 parts →
        decoded start (coded u text 0 parts) ≡ map (place_of u text) parts }
{}
