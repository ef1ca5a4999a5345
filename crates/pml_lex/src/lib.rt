//! Cuts the text of a model into tokens.
#![tactic(auto)]

pub mod fault;
pub mod laws;
pub mod lexeme;
pub mod limits;
mod words;

ghost use Rattle.std.specs.Prelude.{◌≡◌, ◌≤◌, ◌<◌, ◌+◌, ◌^◌, ℕ, List, length, count_by, MatchResult, IfOk, IfErr, IfSome};
ghost use Rattle.pml_token.specs.Word.{Word};
ghost use Rattle.promela_text.specs.Tokens.{is_line_feed, fresh_from, AreTokens};
ghost use Rattle.pml_lex.specs.Divided.{IsLeast, IsUncut, IsDivided};
ghost use Rattle.profile.specs.declared.TheConstants.{MOST_TEXT_BYTES};

use fault::LexError;
use lexeme::{is_blank, next};
use limits::first_left_out;
use pml_token::token::Token;
use profile::MOST_TEXT_BYTES;
use promela_text::lexeme::Lexeme;
use std::alloc::Global;

/// What a text that is skipped leads to.
#[derive(Clone, Copy)]
struct Passed {
    /// How many line feeds it has.
    line_feeds: u32,
    /// Whether the line that it ends in has only blanks.
    fresh: bool,
}

/// What a text leads to, where `fresh` says of what stands before it whether its last line has only blanks.
fn behind(fresh: bool, text: &[u8]) -> Passed
    requires { length text.now ≤ MOST_TEXT_BYTES }
    ensures line_feeds { result.line_feeds ≡ count_by is_line_feed text.now }
    ensures few { result.line_feeds ≤ length text.now }
    ensures fresh { result.fresh ≡ fresh_from fresh text.now }
{
    let mut passed = Passed {
        line_feeds: 0,
        fresh,
    };
    for b in text {
        if *b == b'\n' {
            passed.line_feeds += 1;
            passed.fresh = true;
        } else {
            passed.fresh = passed.fresh && is_blank(*b);
        }
    }
    passed
}

/// The tokens of a text, as far as it can be cut.
fn divide<'t>(alloc: Global, text: &'t [u8]) -> Result<Vec<Token<'t>>, LexError>
    requires { length text.now ≤ MOST_TEXT_BYTES }
    ensures ok { IfOk result (λ v. IsDivided text.now v.items) }
    ensures err { IfErr result (λ f. IsUncut text.now f) }
{
    let mut tokens = Vec::new(alloc);
    let mut rest = text;
    let mut line = 1u32;
    let mut fresh = true;
    while !rest.is_empty() {
        let Some((length, lexeme)) = next(fresh, rest) else {
            return Err(LexError::Lexical(line));
        };
        let (front, back) = rest.split_at(length);
        match lexeme {
            Lexeme::Token(kind) => {
                tokens.push(Token::new(kind, front, line))?;
                fresh = false;
            }
            Lexeme::Skipped => {
                let passed = behind(fresh, front);
                line += passed.line_feeds;
                fresh = passed.fresh;
            }
        }
        rest = back;
    }
    Ok(tokens)
}

/// The tokens of a text of Promela, in order, or the least fault that applies.
///
/// Blanks, comments and the `# 3 "file"` or `#line 3` lines that a preprocessor leaves are skipped. Between them the
/// text is cut into longest tokens, as chapter 3 of Holzmann's *The SPIN Model Checker* has them. The tokens borrow the
/// text, and memory is taken for the list alone.
pub fn cut<'t>(alloc: Global, text: &'t [u8]) -> Result<Vec<Token<'t>>, LexError>
    // What is answered are the text's tokens, and nothing speaks against them.
    ensures ok { IfOk result (λ v. AreTokens text.now v.items) }
    // A fault is the least that applies.
    ensures err { IfErr result (λ f. IsLeast text.now f) }
    // No other tokens can be answered, and where there are some, no fault but want of memory.
    ensures only { (ts : List Word) → AreTokens text.now ts → MatchResult result (λ v. v.items ≡ ts) (λ f. f ≡ LexError.Memory) }
{
    if text.len() > MOST_TEXT_BYTES {
        return Err(LexError::TooLong);
    }
    let tokens = divide(alloc, text)?;
    if let Some(line) = first_left_out(&tokens) {
        return Err(LexError::LeftOut(line));
    }
    Ok(tokens)
}
