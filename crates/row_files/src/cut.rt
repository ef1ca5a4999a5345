//! Texts that are cut in two.

/// What stands before the first of these marks, and behind it, where there is one.
pub fn cut(text: &'static str, mark: &str) -> (&'static str, Option<&'static str>) {
    match text.split_once(mark) {
        Some((before, behind)) => (before, Some(behind)),
        None => (text, None),
    }
}
