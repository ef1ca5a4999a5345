//! What stands in a message.

use serde_json::Value;

/// The text at a path of a message, or an empty one.
pub fn text_at<'v>(message: &'v Value, path: &str) -> &'v str {
    match message.pointer(path).and_then(Value::as_str) {
        Some(text) => text,
        None => "",
    }
}

/// The number at a path of a message, if one stands there that is none below 0 and no fraction.
pub fn number_at(message: &Value, path: &str) -> Option<usize> {
    match message.pointer(path).and_then(Value::as_u64) {
        Some(number) => match usize::try_from(number) {
            Ok(number) => Some(number),
            Err(_) => None,
        },
        None => None,
    }
}

/// Whether `true` stands at a path of a message.
pub fn is_true_at(message: &Value, path: &str) -> bool {
    matches!(message.pointer(path).and_then(Value::as_bool), Some(true))
}

/// The items of the list at a path of a message, or none.
pub fn items_at<'v>(message: &'v Value, path: &str) -> &'v [Value] {
    match message.pointer(path).and_then(Value::as_array) {
        Some(items) => items.as_slice(),
        None => &[],
    }
}

/// The command that a request names.
pub fn command_of(request: &Value) -> &str {
    text_at(request, "/command")
}
