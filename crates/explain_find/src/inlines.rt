//! Whether a place is that of the token which breaks a rule of inlines.

ghost use Rattle.std.specs.Prelude.{◌≡◌, true, is_some, drop};
ghost use Rattle.std.specs.List.{list_any};
ghost use Rattle.std.specs.Str.{bytes_eq};
ghost use Rattle.explain_find.specs.declared.heads.HeadPart.TheVariants as part;
ghost use Rattle.explain_find.specs.Heads.{head, opens_body, is_unwanted};
ghost use Rattle.explain_find.specs.Inlines.{token_at, is_inline, is_defined, begins_with, has_definition, is_called, is_repeated};
ghost use Rattle.explain_find.specs.Inlines.{has_one_name, wanted_at, breaks_form, can_break, IsOfMisuse};

use crate::heads::{HeadPart, head, is_unwanted, opens_body};
use crate::there::is_of;
use explain_cause::cause::Segment;
use pml_token::token::{Kind, Token, same_kind};
use promela_text::misuse::{Misuse, Rule};

/// The token behind so many others.
fn token_at<'t>(tokens: &[Token<'t>], at: usize) -> Token<'t>
    ensures { result ≡ token_at tokens.now at }
{
    if at < tokens.len() {
        tokens[at].copied()
    } else {
        Token::new(Kind::End, b"", 0)
    }
}

/// Whether a token is the word `inline`.
fn is_inline(token: &Token<'_>) -> bool
    ensures { result ≡ is_inline token.now }
{
    same_kind(token.kind(), Kind::Inline)
}

/// Whether the token behind so many others stands where a definition has its name.
fn is_defined(tokens: &[Token<'_>], at: usize) -> bool
    ensures { result ≡ is_defined tokens.now at }
{
    0 < at && is_inline(&token_at(tokens, at - 1))
}

/// Whether tokens begin with one of this name.
fn begins_with(tokens: &[Token<'_>], name: &[u8]) -> bool
    ensures { result ≡ begins_with name.now tokens.now }
{
    match tokens {
        [first, ..] => first.text() == name,
        [] => false,
    }
}

/// Whether some definition among the tokens has this name.
fn has_definition(tokens: &[Token<'_>], name: &[u8]) -> bool
    ensures { result ≡ has_definition name.now tokens.now }
{
    let mut rest = tokens;
    while let [first, behind @ ..] = rest {
        if is_inline(first) && begins_with(behind, name) {
            return true;
        }
        rest = behind;
    }
    false
}

/// Whether the token behind so many others is a name that some definition has.
fn is_called(tokens: &[Token<'_>], at: usize) -> bool
    ensures { result ≡ is_called tokens.now at }
{
    let token = token_at(tokens, at);
    same_kind(token.kind(), Kind::Name) && has_definition(tokens, token.text())
}

/// Whether one of the tokens has this text.
fn has_text(tokens: &[Token<'_>], name: &[u8]) -> bool
    ensures { result ≡ list_any (λ w. bytes_eq w.text name.now) tokens.now }
{
    for token in tokens {
        if token.text() == name {
            return true;
        }
    }
    false
}

/// Whether a name stands twice: behind `at` others, and behind `definition` others and one more.
fn is_repeated(tokens: &[Token<'_>], at: usize, definition: usize) -> bool
    ensures { result ≡ true → is_repeated tokens.now at definition ≡ true }
{
    if definition < at && at <= tokens.len() {
        let name = token_at(tokens, at);
        has_text(&tokens[definition + 1..at], name.text())
    } else {
        false
    }
}

/// Whether two definitions have one name.
fn has_one_name(tokens: &[Token<'_>], at: usize, definition: usize) -> bool
    ensures { result ≡ has_one_name tokens.now at definition }
{
    let name = token_at(tokens, at);
    let first = token_at(tokens, definition);
    is_defined(tokens, at) && definition < at && name.text() == first.text()
}

/// Whether the token behind `at` others is the `{` of the body of the definition whose name stands behind so many.
fn begins_body(tokens: &[Token<'_>], at: usize, definition: usize) -> bool
    ensures { result ≡ true → opens_body (wanted_at tokens.now at definition) (token_at tokens.now at).kind ≡ true }
{
    if definition <= at && at <= tokens.len() {
        let part = head(&tokens[definition..at], HeadPart::Name);
        opens_body(part, token_at(tokens, at).kind())
    } else {
        false
    }
}

/// Whether the token behind `at` others is none that the head of the definition wants.
fn is_unwanted_at(tokens: &[Token<'_>], at: usize, definition: usize) -> bool
    ensures { result ≡ true → is_unwanted (wanted_at tokens.now at definition) (token_at tokens.now at).kind ≡ true }
{
    if definition <= at && at <= tokens.len() {
        let part = head(&tokens[definition..at], HeadPart::Name);
        is_unwanted(part, token_at(tokens, at).kind())
    } else {
        false
    }
}

/// Whether the head of the definition goes on to the end of the text.
fn ends_in_head(tokens: &[Token<'_>], definition: usize) -> bool
    ensures { result ≡ true → is_some (head (drop definition tokens.now) part.Name) ≡ true }
{
    definition <= tokens.len() && head(&tokens[definition..], HeadPart::Name).is_some()
}

/// Whether the token behind `at` others breaks the form of the definition whose name stands behind so many.
fn breaks_form(tokens: &[Token<'_>], at: usize, definition: usize) -> bool
    ensures { result ≡ true → breaks_form tokens.now at definition ≡ true }
{
    if at < tokens.len() && at + 1 == tokens.len() && ends_in_head(tokens, definition) {
        return true;
    }
    is_unwanted_at(tokens, at, definition)
}

/// Whether the token behind `at` others is one that can break the rule.
fn can_break(rule: Rule, tokens: &[Token<'_>], at: usize, definition: usize) -> bool
    ensures { result ≡ true → can_break rule tokens.now at definition ≡ true }
{
    match rule {
        Rule::Outside => is_inline(&token_at(tokens, at)),
        Rule::Form => is_defined(tokens, definition) && breaks_form(tokens, at, definition),
        Rule::Body => is_defined(tokens, definition) && begins_body(tokens, at, definition),
        Rule::Parameters => {
            is_defined(tokens, definition) && is_repeated(tokens, at, definition)
        }
        Rule::Names => is_defined(tokens, definition) && has_one_name(tokens, at, definition),
        _ => is_called(tokens, at),
    }
}

/// Whether a place is that of the token which a misuse names, and this is one that can break its rule.
pub fn is_of_misuse(tokens: &[Token<'_>], misuse: Misuse, place: Segment) -> bool
    ensures { result ≡ true → IsOfMisuse tokens.now misuse place }
{
    is_of(place, &token_at(tokens, misuse.at))
        && can_break(misuse.rule, tokens, misuse.at, misuse.definition)
}
