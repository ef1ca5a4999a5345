//! Replaces the calls of inlines in a list of tokens.
#![tactic(auto)]

mod arguments;
mod calls;
mod definitions;
pub mod laws;
pub mod misuse;
mod names;
mod places;
mod texts;

ghost use Rattle.std.specs.Prelude.{◌≡◌, ℕ, List, IfOk, IfErr, MatchResult};
ghost use Rattle.pml_lex.specs.Rows.{AreOnLines};
ghost use Rattle.pml_token.specs.Word.{Word};
ghost use Rattle.promela_text.specs.Inlines.{IsExpanded};
ghost use Rattle.pml_inline.specs.Least.{IsLeast, IsFaultOnLine};

use misuse::passed;
use pml_lex::limits::first_too_deep;
use pml_token::token::Token;
use promela_text::inline_fault::InlineError;
use std::alloc::Global;

/// The tokens of a text, with its definitions of inlines taken out and each call of one replaced.
///
/// A call is replaced by the body with its braces, in which the arguments stand in place of the parameters, and what comes out is
/// read for calls again. Each token keeps its slice and its line.
pub fn expand<'t>(alloc: Global, tokens: &[Token<'t>]) -> Result<Vec<Token<'t>>, InlineError>
    // What is answered is what comes of the tokens, and nothing speaks against it.
    ensures ok { IfOk result (λ v. IsExpanded tokens.now v.items) }
    // A fault is the least that applies.
    ensures err { IfErr result (λ f. IsLeast tokens.now f) }
    // The line of what goes too deep is one of the lines of the tokens.
    ensures line { (most : ℕ) → AreOnLines most tokens.now → IfErr result (IsFaultOnLine most) }
    // Nothing else can be answered where there is something, but want of memory.
    ensures only { (us : List Word) → IsExpanded tokens.now us → MatchResult result (λ v. v.items ≡ us) (λ f. f ≡ InlineError.Memory) }
{
    let places = places::places(alloc, tokens.len())?;
    let definitions = definitions::definitions(alloc, tokens, &places)?;
    let callees = definitions::callees(alloc, tokens, &definitions)?;
    let text = calls::Text {
        tokens,
        places: &places,
        definitions: &definitions,
        callees: &callees,
    };
    let expanded = texts::expanded(alloc, &text)?;
    if let Some(line) = first_too_deep(&expanded) {
        return Err(InlineError::TooDeep(line, passed(&expanded)));
    }
    Ok(expanded)
}
