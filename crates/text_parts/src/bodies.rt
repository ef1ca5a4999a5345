//! Where the bodies of processes stand.

ghost use Rattle.std.specs.Prelude.{◌≡◌, ◌<◌, ◌≤◌, ◌+◌, ◌^◌};
ghost use Rattle.text_parts.specs.Bodies.{begins_process, begins_unit, depth_in, outside, next, ended, left, held, body_at};
ghost use Rattle.text_parts.specs.declared.bodies.Stand.TheVariants.{Outside};

use pml_token::token::{Kind, Token, same_kind};

/// The body of a process, by how many bytes stand before its parts.
#[derive(Clone, Copy, Debug, PartialEq, Eq)]
pub struct ProcessBody {
    /// The brace that opens it.
    pub brace: u32,
    /// The last place of it: the brace that closes it, or what stands behind it where none does.
    pub last: usize,
    /// What stands behind it.
    pub end: usize,
}

/// Where one stands as one goes over tokens.
#[derive(Clone, Copy, Debug, PartialEq, Eq)]
pub enum Stand {
    /// In no process.
    Outside,
    /// Behind the word that begins a process, and before its body.
    Headed,
    /// In a body, behind the brace that stands there, with so many open.
    Within(u32, usize),
}

/// Whether a process begins with this word.
fn begins_process(kind: Kind) -> bool
    ensures { result ≡ begins_process kind }
{
    same_kind(kind, Kind::Proctype) || same_kind(kind, Kind::Init)
}

/// Whether a unit begins with this word, which stands in no body.
fn begins_unit(kind: Kind) -> bool
    ensures { result ≡ begins_unit kind }
{
    begins_process(kind)
        || same_kind(kind, Kind::Active)
        || same_kind(kind, Kind::Inline)
        || same_kind(kind, Kind::Typedef)
}

/// How many braces are open.
fn depth_in(stand: Stand) -> usize
    ensures { result ≡ depth_in stand }
{
    match stand {
        Stand::Within(_, depth) => depth,
        _ => 0,
    }
}

/// Where one stands behind a token that stands in no body.
fn outside(stand: Stand, kind: Kind) -> Stand
    ensures is { result ≡ outside stand kind }
    ensures few { depth_in result ≤ depth_in stand }
{
    if begins_process(kind) {
        Stand::Headed
    } else if begins_unit(kind) {
        Stand::Outside
    } else {
        stand
    }
}

/// Where one stands behind one more token.
fn next(stand: Stand, token: &Token<'_>) -> Stand
    requires { depth_in stand + 1 < 2 ^ 64 }
    ensures is { result ≡ next stand token.now }
    ensures few { depth_in result ≤ depth_in stand + 1 }
{
    let kind = token.kind();
    match stand {
        Stand::Outside => outside(Stand::Outside, kind),
        Stand::Headed => {
            if same_kind(kind, Kind::OpenBrace) {
                Stand::Within(token.line(), 1)
            } else {
                outside(Stand::Headed, kind)
            }
        }
        Stand::Within(brace, depth) => {
            if same_kind(kind, Kind::OpenBrace) {
                Stand::Within(brace, depth + 1)
            } else if same_kind(kind, Kind::CloseBrace) {
                if depth < 2 {
                    Stand::Outside
                } else {
                    Stand::Within(brace, depth - 1)
                }
            } else if begins_unit(kind) {
                outside(Stand::Outside, kind)
            } else {
                stand
            }
        }
    }
}

/// The body that ends with a token: with the brace that closes it, or before a word that stands in none.
fn ended(stand: Stand, token: &Token<'_>) -> Option<ProcessBody>
    ensures { result ≡ ended stand token.now }
{
    let at = token.line() as usize;
    match stand {
        Stand::Within(brace, depth) => {
            if same_kind(token.kind(), Kind::CloseBrace) && depth < 2 {
                Some(ProcessBody {
                    brace,
                    last: at,
                    end: at + 1,
                })
            } else if begins_unit(token.kind()) {
                Some(ProcessBody {
                    brace,
                    last: at,
                    end: at,
                })
            } else {
                None
            }
        }
        _ => None,
    }
}

/// The body that ends with the text.
fn left(stand: Stand, length: usize) -> Option<ProcessBody>
    ensures { result ≡ left stand length }
{
    match stand {
        Stand::Within(brace, _) => Some(ProcessBody {
            brace,
            last: length,
            end: length,
        }),
        _ => None,
    }
}

/// The body, if there is one and a place lies in it.
fn held(body: Option<ProcessBody>, offset: usize) -> Option<ProcessBody>
    ensures { result ≡ held offset body }
{
    match body {
        Some(body) => {
            if body.brace as usize <= offset && offset <= body.last {
                Some(body)
            } else {
                None
            }
        }
        None => None,
    }
}

/// The first body of a text of so many bytes in which a place lies.
pub fn body_at(tokens: &[Token<'_>], length: usize, offset: usize) -> Option<ProcessBody>
    ensures { result ≡ body_at offset length Outside tokens.now }
{
    let mut stand = Stand::Outside;
    for (i, token) in tokens.iter().enumerate() {
        let _read = i;
        if let Some(body) = held(ended(stand, token), offset) {
            return Some(body);
        }
        stand = next(stand, token);
    }
    held(left(stand, length), offset)
}
