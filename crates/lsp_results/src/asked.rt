//! Places that stand in messages.

ghost use Rattle.std.specs.Prelude.{◌≡◌};
ghost use Rattle.serde_json.specs.View.{view};
ghost use Rattle.lsp_results.specs.Asked.{number_in, place_in, text_in};

use serde_json::Value;
use text_parts::EditorPlace;

/// The number of this name in an object, if it is none below 0 and no fraction.
fn number_in(value: &Value, name: &str) -> Option<usize>
    ensures { result ≡ number_in name.now (view value.now) }
{
    match value.get(name).and_then(Value::as_u64) {
        Some(number) => Some(number as usize),
        None => None,
    }
}

/// The place that an object names by its line and its character.
pub fn place_in(value: &Value) -> Option<EditorPlace>
    ensures { result ≡ place_in (view value.now) }
{
    match (number_in(value, "line"), number_in(value, "character")) {
        (Some(line), Some(column)) => Some(EditorPlace { line, column }),
        _ => None,
    }
}

/// The text of this name in an object, or an empty one.
pub fn text_in<'v>(value: &'v Value, name: &str) -> &'v str
    ensures { result.now ≡ text_in name.now (view value.now) }
{
    match value.get(name).and_then(Value::as_str) {
        Some(text) => text,
        None => "",
    }
}
