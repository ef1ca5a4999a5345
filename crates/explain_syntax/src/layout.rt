//! What the indentation of lines tells of brackets that are not closed.

ghost use Rattle.std.specs.Prelude.{◌≡◌, IfSome, Some};

use crate::stopped::name_at;
use explain_cause::cause::Segment;
use explain_cause::place::{between, bytes_at, closes, is_at, kind_at, opens};
use pml_token::token::{Kind, Token};
use std::alloc::{AllocError, Global};

/// How far a line is set in up to a place of it, and whether only blanks stand before that place.
#[derive(Clone, Copy)]
struct Margin {
    width: usize,
    fresh: bool,
}

/// A tab is as wide as so many blanks.
const TAB: usize = 8;

/// What a margin is behind one byte more.
fn behind(margin: Margin, byte: u8) -> Margin {
    match byte {
        b'\n' => Margin {
            width: 0,
            fresh: true,
        },
        b' ' if margin.fresh => Margin {
            width: margin.width.saturating_add(1),
            fresh: true,
        },
        b'\t' if margin.fresh => Margin {
            width: margin.width.saturating_add(TAB),
            fresh: true,
        },
        _ => Margin {
            width: margin.width,
            fresh: false,
        },
    }
}

/// What a margin is behind these bytes more.
fn behind_all(margin: Margin, bytes: &[u8]) -> Margin {
    let mut last = margin;
    for byte in bytes {
        last = behind(last, *byte);
    }
    last
}

/// How far the line is set in on which a token stands, and whether the token begins it.
fn margin_of(text: &[u8], tokens: &[Token<'_>], at: usize) -> Margin {
    let first = Margin {
        width: 0,
        fresh: true,
    };
    let length = name_at(text, tokens, at).offset;
    behind_all(first, bytes_at(text, Segment { offset: 0, length }))
}

/// A token that opens something, and how far its line is set in.
#[derive(Clone, Copy)]
struct Opened {
    at: usize,
    width: usize,
}

/// Reads a text from token to token, and keeps what is open.
#[derive(Drop)]
struct Layout<'t> {
    text: &'t [u8],
    offset: usize,
    margin: Margin,
    open: Vec<Opened>,
}

impl<'t> Layout<'t> {
    /// At the beginning of a text.
    fn new(alloc: Global, text: &'t [u8]) -> Layout<'t> {
        Layout {
            text,
            offset: 0,
            margin: Margin {
                width: 0,
                fresh: true,
            },
            open: Vec::new(alloc),
        }
    }

    /// Reads on to the place before which so many bytes stand. Of a place that lies behind, as of a token that comes out of a call,
    /// nothing is read.
    fn read_to(&mut self, offset: usize) {
        if self.offset <= offset {
            let place = Segment {
                offset: self.offset,
                length: offset.saturating_sub(self.offset),
            };
            self.margin = behind_all(self.margin, bytes_at(self.text, place));
            self.offset = offset;
        }
    }

    /// Of a token that closes the last that is open: this one, where its line is set in further than that of the token, which begins
    /// its line.
    fn close(&mut self) -> Option<usize> {
        let opened = self.open.pop()?;
        if self.margin.fresh && self.margin.width < opened.width {
            Some(opened.at)
        } else {
            None
        }
    }

    /// Reads the token at a place of the list, and answers what it closes though by the layout it does not.
    fn step(&mut self, at: usize, token: &Token<'_>) -> Result<Option<usize>, AllocError> {
        self.read_to(token.line() as usize);
        if opens(token.kind()) {
            self.open.push(Opened {
                at,
                width: self.margin.width,
            })?;
        } else if closes(token.kind()) {
            return Ok(self.close());
        }
        Ok(None)
    }
}

/// The `{` in which a token stands as far as it is closed, and by the layout does not: what stands in it first begins a line that is set in
/// further than the line of the `{`, and the token begins one that is not.
pub fn left_by_layout(
    text: &[u8],
    tokens: &[Token<'_>],
    opener: Option<usize>,
    at: usize,
) -> Option<usize>
    ensures { IfSome result (λ brace. opener ≡ Some brace) }
{
    let open = opener?;
    let outer = margin_of(text, tokens, open).width;
    let first = margin_of(text, tokens, open.saturating_add(1));
    let own = margin_of(text, tokens, at);
    let is_set_in = first.fresh && outer < first.width;
    let is_behind = own.fresh && own.width <= outer;
    let is_label = is_at(tokens, at, Kind::Name)
        && is_at(tokens, at.saturating_add(1), Kind::Colon);
    let is_statement = !is_label && !closes(kind_at(tokens, at));
    if is_at(tokens, open, Kind::OpenBrace) && is_statement && is_set_in && is_behind {
        Some(open)
    } else {
        None
    }
}

/// The first token between these that opens what is closed at the beginning of a line that is set in less than its own: what closes it
/// is missing, where something is left open.
pub fn unclosed_by_layout(
    alloc: Global,
    text: &[u8],
    tokens: &[Token<'_>],
    opener: Option<usize>,
    end: usize,
) -> Result<Option<usize>, AllocError> {
    let Some(start) = opener else {
        return Ok(None);
    };
    let mut layout = Layout::new(alloc, text);
    for (i, token) in between(tokens, start, end).iter().enumerate() {
        let at = start.saturating_add(i);
        if let Some(suspect) = layout.step(at, token)? {
            return Ok(Some(suspect));
        }
    }
    Ok(None)
}
