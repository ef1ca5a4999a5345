//! The tokens of a condition, in which a place of a process stands as a field of it.

use pml_token::token::{Kind, Token};
use std::alloc::{AllocError, Global};

/// The name that stands for `line` before a number. No variable has it.
pub const LINE: &[u8] = b"at line";

/// The name that stands before a label. No variable has it.
pub const LABEL: &[u8] = b"at label";

const LINE_WORD: &[u8] = b"line";

const AT_WORD: &[u8] = b"at";

/// A text in which a dot stands for each `@`, which no word of the language has.
pub fn dotted(alloc: Global, text: &[u8]) -> Result<Vec<u8>, AllocError> {
    let mut own = Vec::new(alloc);
    for byte in text {
        own.push(if *byte == b'@' { b'.' } else { *byte })?;
    }
    Ok(own)
}

// The tokens of a condition, and its text, as it was written.
#[derive(Clone, Copy)]
struct Read<'s, 't> {
    tokens: &'s [Token<'t>],
    text: &'s [u8],
}

impl Read<'_, '_> {
    // Whether the token at a place is this word.
    fn is_word(self, at: usize, word: &[u8]) -> bool {
        at < self.tokens.len() && self.tokens[at].text() == word
    }

    fn is_kind(self, at: usize, kind: Kind) -> bool {
        at < self.tokens.len() && self.tokens[at].kind() == kind
    }

    // Whether `line 12` stands at a place.
    fn is_line(self, at: usize) -> bool {
        self.is_word(at, LINE_WORD) && self.is_kind(at.saturating_add(1), Kind::Number)
    }

    // Whether `:init:` stands at a place.
    fn is_init(self, at: usize) -> bool {
        self.is_kind(at, Kind::Colon)
            && self.is_kind(at.saturating_add(1), Kind::Init)
            && self.is_kind(at.saturating_add(2), Kind::Colon)
    }

    // Whether the token at a place was written as `@`.
    fn is_sign(self, at: usize) -> bool {
        if at >= self.tokens.len() {
            return false;
        }
        match self.text.get(self.tokens[at].line() as usize) {
            Some(byte) => *byte == b'@',
            None => false,
        }
    }

    // Whether the name of a process, or its number, ends before a place.
    fn is_behind_process(self, at: usize) -> bool {
        if at == 0 {
            return false;
        }
        let before = at - 1;
        self.is_kind(before, Kind::Name)
            || self.is_kind(before, Kind::CloseBracket)
            || self.is_kind(before, Kind::Init)
            || self.is_kind(before, Kind::Colon)
    }

    // Whether what stands at a place says that a label follows.
    fn is_at(self, at: usize) -> bool {
        self.is_kind(at.saturating_add(1), Kind::Name)
            && (self.is_sign(at) || (self.is_word(at, AT_WORD) && self.is_behind_process(at)))
    }
}

// What becomes of the token at a place.
#[derive(Clone, Copy)]
enum Change {
    // `at` before a line: a dot
    Dot,
    // `at` before a label: a field, whose field is the label
    Label,
    // `line` before a number: the name of a place
    Line,
    // the number of a line: an index
    Index,
    // `init`: a name
    Name,
    // the colons of `:init:`: nothing
    Nothing,
    Same,
}

fn change_at(read: Read<'_, '_>, at: usize) -> Change {
    if read.is_line(at.saturating_add(1)) && (read.is_word(at, AT_WORD) || read.is_sign(at)) {
        Change::Dot
    } else if read.is_line(at) {
        Change::Line
    } else if at > 0 && read.is_line(at - 1) {
        Change::Index
    } else if read.is_at(at) {
        Change::Label
    } else if read.is_kind(at, Kind::Init) {
        Change::Name
    } else if read.is_init(at) || (at > 1 && read.is_init(at - 2)) {
        Change::Nothing
    } else {
        Change::Same
    }
}

// Adds a token.
fn put<'t>(token: Token<'t>, list: &mut Vec<Token<'t>>) -> Result<(), AllocError> {
    list.push(token)?;
    Ok(())
}

// Adds a number as an index.
fn add_index<'t>(token: &Token<'t>, list: &mut Vec<Token<'t>>) -> Result<(), AllocError> {
    put(
        Token::new(Kind::OpenBracket, token.text(), token.line()),
        list,
    )?;
    put(token.copied(), list)?;
    put(
        Token::new(Kind::CloseBracket, token.text(), token.line()),
        list,
    )
}

// Adds a field, whose field stands behind it.
fn add_label<'t>(token: &Token<'t>, list: &mut Vec<Token<'t>>) -> Result<(), AllocError> {
    put(Token::new(Kind::Dot, token.text(), token.line()), list)?;
    put(Token::new(Kind::Name, LABEL, token.line()), list)?;
    put(Token::new(Kind::Dot, token.text(), token.line()), list)
}

// Adds what becomes of a token.
fn add<'t>(token: &Token<'t>, change: Change, list: &mut Vec<Token<'t>>) -> Result<(), AllocError> {
    match change {
        Change::Dot => put(Token::new(Kind::Dot, token.text(), token.line()), list),
        Change::Label => add_label(token, list),
        Change::Line => put(Token::new(Kind::Name, LINE, token.line()), list),
        Change::Index => add_index(token, list),
        Change::Name => put(Token::new(Kind::Name, token.text(), token.line()), list),
        Change::Nothing => Ok(()),
        Change::Same => put(token.copied(), list),
    }
}

/// The tokens of a condition with this text, in which `at line 12` stands as the element 12 of a field, `line 12` as that of a variable,
/// `at L` as a field of a field, and `:init:` as a name.
pub fn respelled<'t>(
    alloc: Global,
    tokens: &[Token<'t>],
    text: &[u8],
) -> Result<Vec<Token<'t>>, AllocError> {
    let mut list = Vec::new(alloc);
    let read = Read { tokens, text };
    for at in 0..tokens.len() {
        add(&tokens[at], change_at(read, at), &mut list)?;
    }
    Ok(list)
}
