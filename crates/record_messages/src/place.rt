//! Whether a token stands in a message, in a list of types, or in the head of a loop over messages.

ghost use Rattle.std.specs.Prelude.{◌≡◌};
ghost use Rattle.record_messages.specs.Places as places;

use pml_token::token::{Kind, same_kind};
use prepare::context::deeper;

/// What is known before a token.
#[derive(Clone, Copy)]
pub enum MessagePlace {
    Outside,
    /// In a message; how many brackets are open since it began.
    Sent(u32),
    /// Behind `of`.
    Listed,
    /// Among the types of a channel's messages.
    Types,
    /// Behind the `for` of a loop over messages.
    Headed,
    /// Before the variable of the loop.
    Counted,
    /// Before its `in`.
    Ranged,
    /// Behind that.
    Over,
    /// Before the `{` of its body.
    Entered,
}

fn begun(kind: Kind) -> MessagePlace
    ensures { result ≡ places.begun kind }
{
    match kind {
        Kind::Of => MessagePlace::Listed,
        Kind::Bang | Kind::BangBang | Kind::Query | Kind::QueryQuery => MessagePlace::Sent(0),
        _ => MessagePlace::Outside,
    }
}

fn left(depth: u32) -> MessagePlace
    ensures { result ≡ places.left depth }
{
    if depth == 0 {
        MessagePlace::Outside
    } else {
        MessagePlace::Sent(depth - 1)
    }
}

// Behind a token of a message.
fn sent_behind(depth: u32, kind: Kind) -> MessagePlace
    ensures { result ≡ places.sent_behind depth kind }
{
    match kind {
        Kind::OpenParen | Kind::OpenBracket => MessagePlace::Sent(deeper(depth)),
        Kind::CloseParen | Kind::CloseBracket => left(depth),
        Kind::Arrow => {
            if depth == 0 {
                MessagePlace::Outside
            } else {
                MessagePlace::Sent(depth)
            }
        }
        Kind::Semicolon
        | Kind::DoubleColon
        | Kind::OpenBrace
        | Kind::CloseBrace
        | Kind::Fi
        | Kind::Od => MessagePlace::Outside,
        _ => MessagePlace::Sent(depth),
    }
}

/// What is known behind a token that begins no loop over messages.
fn behind_other(place: MessagePlace, kind: Kind) -> MessagePlace
    ensures { result ≡ places.behind_other place kind }
{
    match place {
        MessagePlace::Outside | MessagePlace::Entered => begun(kind),
        MessagePlace::Sent(depth) => sent_behind(depth, kind),
        MessagePlace::Listed => {
            if same_kind(kind, Kind::OpenBrace) {
                MessagePlace::Types
            } else {
                begun(kind)
            }
        }
        MessagePlace::Types => {
            if same_kind(kind, Kind::CloseBrace) {
                MessagePlace::Outside
            } else {
                MessagePlace::Types
            }
        }
        MessagePlace::Headed => MessagePlace::Counted,
        MessagePlace::Counted => MessagePlace::Ranged,
        MessagePlace::Ranged => MessagePlace::Over,
        MessagePlace::Over => {
            if same_kind(kind, Kind::CloseParen) {
                MessagePlace::Entered
            } else {
                MessagePlace::Over
            }
        }
    }
}

/// What is known behind a token, which may begin a loop over messages.
pub fn behind(place: MessagePlace, is_loop: bool, kind: Kind) -> MessagePlace
    ensures { result ≡ places.behind place is_loop kind }
{
    if is_loop {
        MessagePlace::Headed
    } else {
        behind_other(place, kind)
    }
}
