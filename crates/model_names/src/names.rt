//! The names of a text.

ghost use Rattle.std.specs.Prelude.{◌≡◌, IfOk, IfSome};
ghost use Rattle.model_names.specs.Told.{AreMeantBy, AreMeantIn, AreMeant};
ghost use Rattle.promela_model.specs.Marks.{of_tree};

use crate::inlines::{Inlines, inlines_of};
use crate::marks::marks_of;
use declared_names::declared::{Declaration, declared};
use declared_names::meant::meant;
use declared_names::occurrence::Occurrence;
use explain_tokens::placed;
use pml_inline::expand;
use pml_lex::fault::LexError;
use pml_token::token::Token;
use promela_text::inline_fault::InlineError;
use std::alloc::{AllocError, Global};

/// The names of a text.
#[derive(Drop)]
pub struct TextNames {
    /// Each name that means a declaration, as the checks go through them: a token of an inline's body once for each call.
    pub meant: Vec<Occurrence>,
    /// What is declared, but for inlines.
    pub declarations: Vec<Declaration>,
    /// The names of inlines and of their parameters.
    pub inlines: Inlines,
}

/// What tokens without inlines declare and mean.
#[derive(Drop)]
struct Outcome {
    meant: Vec<Occurrence>,
    declarations: Vec<Declaration>,
}

fn marked<'a>(alloc: Global, tokens: &'a [Token<'a>]) -> Result<Option<Outcome>, AllocError>
    ensures { IfOk result (λ o. IfSome o (λ r. AreMeantBy tokens.now r.meant.items)) }
{
    match marks_of(alloc, tokens)? {
        Some(marks) => Ok(Some(Outcome {
            meant: meant(alloc, marks.as_slice())?,
            declarations: declared(alloc, marks.as_slice())?,
        })),
        None => Ok(None),
    }
}

fn of_tokens<'a>(alloc: Global, tokens: &'a [Token<'a>]) -> Result<Option<TextNames>, AllocError>
    ensures { IfOk result (λ o. IfSome o (λ names. AreMeantIn tokens.now names.meant.items)) }
{
    let expanded = match expand(alloc, tokens) {
        Ok(expanded) => expanded,
        Err(InlineError::Memory) => return Err(AllocError),
        Err(_) => return Ok(None),
    };
    match marked(alloc, &expanded)? {
        Some(
            Outcome {
                meant,
                declarations,
            },
        ) => Ok(Some(TextNames {
            meant,
            declarations,
            inlines: inlines_of(alloc, tokens)?,
        })),
        None => Ok(None),
    }
}

/// The names of a text, if its tokens spell a tree.
pub fn names_of(alloc: Global, text: &[u8]) -> Result<Option<TextNames>, AllocError>
    ensures { IfOk result (λ o. IfSome o (λ names. AreMeant text.now names.meant.items)) }
{
    match placed(alloc, text) {
        Ok(tokens) => of_tokens(alloc, &tokens),
        Err(LexError::Memory) => Err(AllocError),
        Err(_) => Ok(None),
    }
}
