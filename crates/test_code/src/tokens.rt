//! Tokens that no text gives, and what a fault prints. The rows of files have those of texts.
use crate::compare::same;
use pml_lex::fault::LexError;
use pml_lex::limits::{first_left_out, first_too_deep};
use pml_token::token::{Kind, Token, same_kind};
use std::process::Abort;

static FAULTS: [(LexError, &str); 4] = [
    (LexError::Memory, "out of memory"),
    (LexError::TooLong, "text too long"),
    (LexError::Lexical(3), "line 3: lexical"),
    (LexError::LeftOut(1), "line 1: left out"),
];

#[test]
fn faults_have_texts(rt: HostRuntime) {
    for (fault, wanted) in &FAULTS {
        let text = format!(in rt.alloc(); "{fault}").expect(&rt, wanted);
        same(&rt, "a fault of a text", "its words", text.as_str(), wanted);
    }
}

fn has_parts<R: Abort>(rt: &R, name: &str, token: &Token<'_>) {
    let is_name = same_kind(token.kind(), Kind::Name);
    same(rt, name, "is a name", is_name, true);
    let is_number = same_kind(token.kind(), Kind::Number);
    same(rt, name, "is a number", is_number, false);
    let text: &[u8] = b"ab";
    same(rt, name, "its text", token.text(), text);
    same(rt, name, "its line", token.line(), 7);
}

#[test]
fn tokens_keep_their_parts(rt: HostRuntime) {
    let token = Token::new(Kind::Name, b"ab", 7);
    let other = token.copied();
    has_parts(&rt, "a copied token", &other);
    has_parts(&rt, "a token", &token);
}

/// So many brackets, on the lines from 1 on.
fn opens<R: Abort>(rt: &R, tokens: &mut Vec<Token<'static>>, brackets: u32) {
    for line in 0..brackets {
        let token = Token::new(Kind::OpenParen, b"(", line.saturating_add(1));
        tokens.push(token).expect(rt, "a bracket");
    }
}

/// The lines of the first word that is left out, and where it goes too deep.
fn are_told<R: Abort>(
    rt: &R,
    name: &str,
    tokens: &[Token<'_>],
    left_out: Option<u32>,
    too_deep: Option<u32>,
) {
    same(rt, name, "left out", first_left_out(tokens), left_out);
    same(rt, name, "is too deep", first_too_deep(tokens), too_deep);
}

/// A list of tokens that no text has, as a later layer may hand it in.
#[test]
fn limits_are_asked_of_any_list(rt: HostRuntime) {
    let mut tokens = Vec::new(rt.alloc());
    let never = Token::new(Kind::LeftOut, b"never", 4);
    tokens.push(never).expect(&rt, "a token");
    are_told(&rt, "a word left out", &tokens, Some(4), None);
    opens(&rt, &mut tokens, 101);
    are_told(&rt, "many brackets", &tokens, Some(4), Some(101));
}
