//! What is shown of a line round a place.

ghost use Rattle.std.specs.Prelude.{◌≡◌, min, slice_index_or};
ghost use Rattle.source_lines.specs.Windows.{goes_on, rounded, window_start, window_end, marked_end, window_round};

/// So many bytes of a line are shown in front of a place, and so many behind its beginning.
const SHOWN_BEFORE: usize = 60;

const SHOWN_BEHIND: usize = 80;

/// What is shown of a line: from one of its bytes to another, and which of them are marked.
#[derive(Clone, Copy)]
pub struct Window {
    pub from: usize,
    pub to: usize,
    pub onset: usize,
    pub onset_end: usize,
}

/// The less of two numbers.
pub fn least(a: usize, b: usize) -> usize
    ensures { result ≡ min a b }
{
    if a < b { a } else { b }
}

/// The byte behind so many others, or 0.
fn byte_at(line: &[u8], at: usize) -> u8
    ensures { result ≡ slice_index_or line.now at 0 }
{
    if at < line.len() { line[at] } else { 0 }
}

/// Whether a byte goes on with a character of UTF-8.
fn goes_on(line: &[u8], at: usize) -> bool
    ensures { result ≡ goes_on line.now at }
{
    let byte = byte_at(line, at);
    128 <= byte && byte < 192
}

/// The place itself, or the first one behind it at which a character begins.
fn rounded(line: &[u8], at: usize) -> usize
    ensures { result ≡ rounded line.now at }
{
    if !goes_on(line, at) {
        at
    } else if !goes_on(line, at + 1) {
        at + 1
    } else if !goes_on(line, at + 2) {
        at + 2
    } else {
        at + 3
    }
}

/// What is shown of a line round the bytes from `onset` on, of which there are `length`.
pub fn window_round(line: &[u8], onset: usize, length: usize) -> Window
    ensures { result ≡ window_round line.now onset length }
{
    let onset = least(onset, line.len());
    let to = rounded(line, least(onset + SHOWN_BEHIND, line.len()));
    let end = if length < line.len() - onset {
        onset + length
    } else {
        line.len()
    };
    Window {
        from: least(rounded(line, onset.saturating_sub(SHOWN_BEFORE)), onset),
        to,
        onset,
        onset_end: least(rounded(line, end), to),
    }
}
