//! What a list of tokens may not hold.

ghost use Rattle.std.specs.Prelude.{◌≡◌, ◌≤◌, ◌<◌, ◌+◌, ◌^◌, ◌-◌, ℕ, true, false, All, MatchOption, length, take, ⊤};
ghost use Rattle.promela_text.specs.Tokens as limits;
ghost use Rattle.pml_lex.specs.Rows as rows;
ghost use Rattle.promela_text.specs.Tokens.{IsOnLine};
ghost use Rattle.pml_lex.specs.Rows.{AreOnLines};
ghost use Rattle.pml_token.specs.Word.{Word};

use pml_token::token::{Kind, Token, same_kind};
use profile::{MOST_IN_A_ROW, MOST_OPEN};

/// The line of the first token that stands for something that is left out.
pub fn first_left_out(tokens: &[Token<'_>]) -> Option<u32>
    ensures found { MatchOption result (limits.has_left_out tokens.now ≡ false) (λ line. limits.has_left_out tokens.now ≡ true) }
    ensures line { (most : ℕ) → AreOnLines most tokens.now → MatchOption result ⊤ (λ line. IsOnLine most line) }
{
    for token in tokens {
        if same_kind(token.kind(), Kind::LeftOut) {
            return Some(token.line());
        }
    }
    None
}

fn opens(kind: Kind) -> bool
    ensures { result ≡ limits.opens kind }
{
    matches!(
        kind,
        Kind::OpenParen | Kind::OpenBracket | Kind::OpenBrace | Kind::If | Kind::Do
    )
}

fn closes(kind: Kind) -> bool
    ensures { result ≡ limits.closes kind }
{
    matches!(
        kind,
        Kind::CloseParen | Kind::CloseBracket | Kind::CloseBrace | Kind::Fi | Kind::Od
    )
}

fn breaks(kind: Kind) -> bool
    ensures { result ≡ limits.breaks kind }
{
    matches!(
        kind,
        Kind::Semicolon
            | Kind::DoubleColon
            | Kind::OpenBrace
            | Kind::CloseBrace
            | Kind::If
            | Kind::Fi
            | Kind::Do
            | Kind::Od
    )
}

fn deepen(depth: u32, kind: Kind) -> u32
    requires { depth < 1000000 }
    ensures { result ≡ rows.deepen depth kind }
{
    // sums in place of branches, since no processor foretells them well
    let opened = opens(kind);
    let closed = !opened && closes(kind);
    (depth + u32::from(opened)).saturating_sub(u32::from(closed))
}

fn lengthen(row: u32, kind: Kind) -> u32
    requires { row < 1000000 }
    ensures { result ≡ rows.lengthen row kind }
{
    (row + 1) * u32::from(!breaks(kind))
}

/// The line of the first token at which the brackets are too deep, or too many tokens stand in a row.
pub fn first_too_deep(tokens: &[Token<'_>]) -> Option<u32>
    ensures found { MatchOption result (limits.IsTooDeep tokens.now → ⊥) (λ line. limits.IsTooDeep tokens.now) }
    ensures line { (most : ℕ) → AreOnLines most tokens.now → MatchOption result ⊤ (λ line. IsOnLine most line) }
{
    let mut depth = 0;
    let mut row = 0;
    for token in tokens {
        depth = deepen(depth, token.kind());
        row = lengthen(row, token.kind());
        if depth > MOST_OPEN || row > MOST_IN_A_ROW {
            return Some(token.line());
        }
    }
    None
}
