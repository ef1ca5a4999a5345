//! What a layer makes of a text, in words.
use crate::layer::LayerView;
use crate::tokens::{add_count, add_tokens};
use crate::tree::of_tokens;
use crate::words::add_words;
use pml_inline::expand;
use pml_lex::cut;
use pml_lex::fault::LexError;
use pml_token::token::Token;
use promela_text::inline_fault::InlineError;
use row_files::{RowBlock, RowWriter};
use std::alloc::Global;

fn of_inlines(
    alloc: Global,
    view: LayerView,
    block: RowBlock,
    tokens: &[Token<'_>],
    out: &mut RowWriter,
) {
    match expand(alloc, tokens) {
        Ok(expanded) => of_tokens(alloc, view, block, expanded.as_slice(), out),
        Err(InlineError::Memory) => out.no_memory(),
        Err(fault) => out.kind(&fault),
    }
}

fn of_cut<'a>(
    alloc: Global,
    view: LayerView,
    block: RowBlock,
    tokens: &'a [Token<'a>],
    out: &mut RowWriter,
) {
    match view {
        LayerView::Tokens => add_tokens(tokens, out),
        LayerView::Count => add_count(tokens, out),
        LayerView::BareTree => of_tokens(alloc, view, block, tokens, out),
        _ => of_inlines(alloc, view, block, tokens, out),
    }
}

fn of_text(alloc: Global, view: LayerView, block: RowBlock, text: &[u8], out: &mut RowWriter) {
    match cut(alloc, text) {
        Ok(tokens) => of_cut(alloc, view, block, tokens.as_slice(), out),
        Err(LexError::Memory) => out.no_memory(),
        Err(fault) => out.kind(&fault),
    }
}

/// Writes what a layer makes of a text, or the refusal of a layer below it. The block says what is asked besides.
pub fn answer(alloc: Global, view: LayerView, block: RowBlock, text: &[u8], out: &mut RowWriter) {
    match view {
        LayerView::Words => add_words(alloc, text, out),
        _ => of_text(alloc, view, block, text, out),
    }
}
