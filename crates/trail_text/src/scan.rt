//! What stands where in a line.

ghost use Rattle.std.specs.Prelude.{◌≡◌, ◌+◌, ◌≤◌, ◌<◌, length, is_some, IfSome};
ghost use Rattle.std.specs.List.{prefix_len};
ghost use Rattle.std.specs.Option.{option_map};
ghost use Rattle.trail_text.specs.Parts.{is_blank, behind_blanks, IsFront, IsEnd, IsParted, IsBefore, has};
ghost use Rattle.trail_text.specs.Numbers.{is_digit, number, first_number, IsLastNumber};

fn is_blank(byte: u8) -> bool
    ensures { result ≡ is_blank byte }
{
    byte == b' ' || byte == b'\t' || byte == b'\r'
}

/// A text without the blanks before it.
pub fn behind_blanks(text: &[u8]) -> &[u8]
    ensures end { IsEnd result.now text.now }
    ensures exact { result.now ≡ behind_blanks text.now }
{
    for at in 0..text.len() {
        if !is_blank(text[at]) {
            return &text[at..];
        }
    }
    &text[text.len()..]
}

/// A text without the blanks behind it.
pub fn before_blanks(text: &[u8]) -> &[u8]
    ensures { IsFront result.now text.now }
{
    for blanks in 0..text.len() {
        let end = text.len() - blanks;
        if !is_blank(text[end - 1]) {
            return &text[..end];
        }
    }
    &text[..0]
}

/// What stands before the first of these words, and behind it.
pub fn parted<'t>(text: &'t [u8], word: &[u8]) -> Option<(&'t [u8], &'t [u8])>
    ensures parted { IfSome result (λ p. IsParted text.now word.now p.0.now p.1.now) }
    ensures shorter { IfSome result (λ p. length p.1.now + length word.now ≤ length text.now) }
    ensures has { is_some result ≡ has text.now word.now }
{
    for at in 0..text.len() {
        match text[at..].strip_prefix(word) {
            Some(behind) => return Some((&text[..at], behind)),
            None => {}
        }
    }
    None
}

/// What stands before the last of these bytes.
pub fn before_last(text: &[u8], byte: u8) -> Option<&[u8]>
    ensures { IfSome result (λ front. IsBefore text.now byte front.now) }
{
    for behind in 0..text.len() {
        let at = text.len() - behind - 1;
        if text[at] == byte {
            return Some(&text[..at]);
        }
    }
    None
}

// How many digits stand first.
fn digit_count(text: &[u8]) -> usize
    ensures within { result ≤ length text.now }
    ensures count { result ≡ prefix_len is_digit text.now }
{
    for at in 0..text.len() {
        if !text[at].is_ascii_digit() {
            return at;
        }
    }
    text.len()
}

// The number of these digits.
fn number_of(digits: &[u8]) -> usize
    ensures { result ≡ number digits.now }
{
    let mut number = 0usize;
    for digit in digits {
        number = number
            .saturating_mul(10)
            .saturating_add(usize::from(digit.saturating_sub(b'0')));
    }
    number
}

/// The number that stands first, and what stands behind it.
pub fn number_first(text: &[u8]) -> Option<(usize, &[u8])>
    ensures end { IfSome result (λ p. IsEnd p.1.now text.now × (length p.1.now < length text.now)) }
    ensures number { option_map (λ p. p.0) result ≡ first_number text.now }
{
    let count = digit_count(text);
    if count == 0 {
        return None;
    }
    Some((number_of(&text[..count]), &text[count..]))
}

/// The number that stands last.
pub fn number_last(text: &[u8]) -> Option<usize>
    ensures { IfSome result (IsLastNumber text.now) }
{
    let mut start = text.len();
    for behind in 0..text.len() {
        let at = text.len() - behind - 1;
        if !text[at].is_ascii_digit() {
            break;
        }
        start = at;
    }
    if start >= text.len() {
        return None;
    }
    Some(number_of(&text[start..]))
}

/// The lines of a text that are still to be read, and the number of the last that was.
#[derive(Clone, Copy, Debug)]
pub struct Lines<'t> {
    pub rest: &'t [u8],
    pub row: usize,
}

impl<'t> Lines<'t> {
    /// Those of a whole text.
    pub fn new(text: &'t [u8]) -> Lines<'t>
        ensures rest { result.rest.now ≡ text.now }
        ensures row { result.row ≡ 0 }
    {
        Lines { rest: text, row: 0 }
    }

    /// The next line, if there is one.
    pub fn next(&mut self) -> Option<&'t [u8]>
        ensures { IfSome result (λ line. length self.new.rest.now < length self.old.rest.now) }
    {
        let rest = self.rest;
        if rest.is_empty() {
            return None;
        }
        self.row = self.row.saturating_add(1);
        match parted(rest, b"\n") {
            Some((line, behind)) => {
                self.rest = behind;
                Some(line)
            }
            None => {
                self.rest = &rest[rest.len()..];
                Some(rest)
            }
        }
    }
}
