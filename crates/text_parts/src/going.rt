//! Places as one goes over bytes.

ghost use Rattle.std.specs.Prelude.{◌≡◌, ◌≤◌, ◌<◌, ◌+◌, ◌^◌};
ghost use Rattle.text_parts.specs.Offsets.{units_in};
ghost use Rattle.text_parts.specs.Going.{start, stepped, gone};

use crate::places::{ColumnUnit, EditorPlace};
use source_lines::position::is_line_feed;

/// How many units a byte counts by itself.
fn units_in(unit: ColumnUnit, byte: u8) -> usize
    ensures is { result ≡ units_in unit byte }
    ensures few { result ≤ 2 }
{
    match unit {
        ColumnUnit::Utf8 => 1,
        ColumnUnit::Utf16 => {
            let character = if 127 < byte && byte < 192 { 0 } else { 1 };
            let pair = if 239 < byte { 1 } else { 0 };
            character + pair
        }
    }
}

/// The place behind one more byte.
fn stepped(unit: ColumnUnit, place: EditorPlace, byte: u8) -> EditorPlace
    requires lines { place.line + 1 < 2 ^ 64 }
    requires columns { place.column + 2 < 2 ^ 64 }
    ensures is { result ≡ stepped unit place byte }
    ensures line { result.line ≤ place.line + 1 }
    ensures column { result.column ≤ place.column + 2 }
{
    if is_line_feed(byte) {
        EditorPlace {
            line: place.line + 1,
            column: 0,
        }
    } else {
        EditorPlace {
            line: place.line,
            column: place.column + units_in(unit, byte),
        }
    }
}

/// The place behind bytes that stand at the start of a text.
pub fn gone(unit: ColumnUnit, bytes: &[u8]) -> EditorPlace
    ensures { result ≡ gone unit start bytes.now }
{
    let mut place = EditorPlace { line: 0, column: 0 };
    for (i, byte) in bytes.iter().enumerate() {
        let _read = i;
        place = stepped(unit, place, *byte);
    }
    place
}
