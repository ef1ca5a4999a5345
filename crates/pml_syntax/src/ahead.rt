//! What comes next, as far as a statement is chosen by more than one token, and what is left out between two.

ghost use Rattle.std.specs.Prelude.{◌≡◌};
ghost use Rattle.pml_syntax.specs.ReadingStatements as statements;
ghost use Rattle.pml_syntax.specs.ReadingUnits as units;

use crate::starts::{declares, is_separator, is_visibility};
use pml_expression::cursor::Cursor;
use pml_token::token::Kind;

/// Whether a label comes next.
#[tactic(auto, unfolding(crate::specs::ReadingStatements::is_label, pml_expression::specs::Reading::sees))]
pub fn is_label(tokens: &Cursor<'_>) -> bool
    ensures { result ≡ statements.is_label tokens.now }
{
    tokens.sees(Kind::Name) && tokens.sees_second(Kind::Colon)
}

/// Whether a declaration comes next, if any item does.
#[tactic(auto, unfolding(crate::specs::ReadingStatements::is_declaration, pml_expression::specs::Reading::sees))]
pub fn is_declaration(tokens: &Cursor<'_>) -> bool
    ensures { result ≡ statements.is_declaration tokens.now }
{
    declares(tokens.peek()) || (tokens.sees(Kind::Name) && tokens.sees_second(Kind::Name))
}

/// Whether `run` stands behind any number of `(`.
pub fn leads_to_run(tokens: &Cursor<'_>) -> bool
    ensures { result ≡ statements.leads_to_run tokens.now }
{
    let mut ahead = Cursor::new(tokens.ahead());
    for _turn in 0..tokens.left() {
        if !ahead.sees(Kind::OpenParen) {
            return ahead.sees(Kind::Run);
        }
        ahead.skip();
    }
    false
}

/// Leaves the separators out that come next.
pub fn skip_separators(tokens: &mut Cursor<'_>)
    ensures { tokens.new ≡ statements.skip_separators tokens.old }
{
    for _turn in 0..tokens.left() {
        if !is_separator(tokens.peek()) {
            return;
        }
        tokens.skip();
    }
}

/// Leaves the semicolons out that come next.
pub fn skip_semicolons(tokens: &mut Cursor<'_>)
    ensures { tokens.new ≡ units.skip_semicolons tokens.old }
{
    for _turn in 0..tokens.left() {
        if !tokens.sees(Kind::Semicolon) {
            return;
        }
        tokens.skip();
    }
}

/// Leaves a word out that says who sees a variable.
#[tactic(auto, unfolding(crate::specs::ReadingStatements::skip_visibility, pml_expression::specs::Reading::pick))]
pub fn skip_visibility(tokens: &mut Cursor<'_>)
    ensures { tokens.new ≡ statements.skip_visibility tokens.old }
{
    if is_visibility(tokens.peek()) {
        tokens.skip();
    }
}
