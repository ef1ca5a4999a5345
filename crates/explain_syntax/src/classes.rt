//! What may stand where no rule reads a token, found by reading the tokens in front of it with another behind them.

use crate::trial::may_stand;
use explain_cause::cause::{Classes, Phrase};
use pml_token::token::{Kind, Token};
use std::alloc::{AllocError, Global};

/// Behind more tokens nothing is tried, so that what is told costs little beside the refusal.
const MOST_READ: usize = 20_000;

/// A token for each of what may stand somewhere. One that a class before it takes in is not told behind that.
const TRIALS: [(Phrase, Kind, &[u8]); 18] = [
    (Phrase::Unit, Kind::Proctype, b"proctype"),
    (Phrase::Statement, Kind::Goto, b"goto"),
    (Phrase::Expression, Kind::Number, b"1"),
    (Phrase::Type, Kind::Byte, b"byte"),
    (Phrase::Name, Kind::Name, b"x"),
    (Phrase::Text, Kind::Quoted, b"\"\""),
    (Phrase::Semicolon, Kind::Semicolon, b";"),
    (Phrase::Comma, Kind::Comma, b","),
    (Phrase::CloseParen, Kind::CloseParen, b")"),
    (Phrase::CloseBracket, Kind::CloseBracket, b"]"),
    (Phrase::CloseBrace, Kind::CloseBrace, b"}"),
    (Phrase::OpenParen, Kind::OpenParen, b"("),
    (Phrase::OpenBrace, Kind::OpenBrace, b"{"),
    (Phrase::DoubleColon, Kind::DoubleColon, b"::"),
    (Phrase::Assign, Kind::Assign, b"="),
    (Phrase::Colon, Kind::Colon, b":"),
    (Phrase::Of, Kind::Of, b"of"),
    (Phrase::Operator, Kind::Plus, b"+"),
];

/// Nothing may stand there.
const NOTHING: Classes = Classes {
    first: None,
    second: None,
    third: None,
    fourth: None,
};

/// Whether what was found says of a class what it says.
fn says(found: Classes, class: Phrase) -> bool {
    let takes_words = matches!(
        found.first,
        Some(Phrase::Unit) | Some(Phrase::Statement) | Some(Phrase::Expression) | Some(Phrase::Type)
    );
    let is_word = matches!(
        class,
        Phrase::Expression | Phrase::Type | Phrase::Name | Phrase::OpenParen | Phrase::OpenBrace
    );
    is_word && takes_words
}

/// The same with one more, or as many as there may be.
fn with(found: Classes, class: Phrase) -> Classes {
    let Classes {
        first,
        second,
        third,
        fourth,
    } = found;
    let class = Some(class);
    if first.is_none() {
        return Classes {
            first: class,
            second,
            third,
            fourth,
        };
    }
    if second.is_none() {
        return Classes {
            first,
            second: class,
            third,
            fourth,
        };
    }
    if third.is_none() {
        return Classes {
            first,
            second,
            third: class,
            fourth,
        };
    }
    if fourth.is_none() {
        return Classes {
            first,
            second,
            third,
            fourth: class,
        };
    }
    found
}

/// At most four of what may stand in place of the token at `at`, or none.
pub fn classes_at(alloc: Global, tokens: &[Token<'_>], at: usize) -> Result<Classes, AllocError> {
    let mut found = NOTHING;
    if at > MOST_READ {
        return Ok(found);
    }
    for (class, kind, text) in &TRIALS {
        if !says(found, *class) && may_stand(alloc, tokens, at, *kind, *text)? {
            found = with(found, *class);
        }
    }
    Ok(found)
}
