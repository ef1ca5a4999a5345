//! What stands in a message.

ghost use Rattle.std.specs.Prelude.{◌≡◌};
ghost use Rattle.serde_json.specs.View.{view};
ghost use Rattle.lsp_answers.specs.Messages.{text_at};

use serde_json::Value;

/// The text at a path of a message, or an empty one.
pub fn text_at<'v>(message: &'v Value, path: &str) -> &'v str
    ensures { result.now ≡ text_at path.now (view message.now) }
{
    match message.pointer(path).and_then(Value::as_str) {
        Some(text) => text,
        None => "",
    }
}

/// Whether a list at a path of a message has this text.
pub fn lists(message: &Value, path: &str, text: &str) -> bool {
    let Some(items) = message.pointer(path).and_then(Value::as_array) else {
        return false;
    };
    for item in items.as_slice() {
        if let Some(found) = item.as_str() {
            if found == text {
                return true;
            }
        }
    }
    false
}
