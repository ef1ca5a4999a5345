//! What may be typed at a place.

ghost use Rattle.std.specs.Prelude.{◌≡◌, ◌++◌, take, map, IfOk, OnOk};
ghost use Rattle.serde_json.specs.View.{view};
ghost use Rattle.lsp_completions.specs.Items.{AreWords};
ghost use Rattle.lsp_completions.specs.Wishes.{own_owner, fields_of, field_owner, fields_at, own_names, other_names, names_at, AreOffered, IsList, IsCompletion};

use crate::fronts::{before_typed, typed_in};
use crate::items::{items, words};
use crate::readable::{Readable, readable_at};
use crate::words::{IN_A_BODY, OUTSIDE};
use declared_names::declared::Declaration;
use explain_tokens::placed;
use lsp_results::page::Page;
use offered_names::{
    Fitting, PlaceStanding, SoughtNames, add_offered, asked_behind, form_behind, owner_at, stands,
};
use pml_lex::fault::LexError;
use pml_program::form::Form;
use pml_token::token::Token;
use serde_json::{Value, json};
use source_lines::position::between;
use std::alloc::{AllocError, Global};

/// So many names are told at most.
pub const MOST_NAMES: usize = 1000;

/// A place of a text: what is typed of the word there, what may stand there, and in which unit it is.
#[derive(Clone, Copy)]
pub struct TypedPlace<'p> {
    pub typed: &'p [u8],
    pub asked: Fitting,
    pub standing: PlaceStanding,
}

/// Names that are offered, as values of JSON.
#[derive(Drop)]
pub struct OfferedItems {
    pub items: Vec<Value>,
    /// Whether some are left out.
    pub is_cut: bool,
}

/// Whose names may stand there.
fn own_owner(found: &Readable, standing: PlaceStanding) -> usize
    ensures { result ≡ own_owner found.now standing }
{
    let Some(head) = standing.head else {
        return 0;
    };
    if standing.is_inline {
        owner_at(head, found.names.inlines.declarations.as_slice())
    } else {
        owner_at(head, found.names.declarations.as_slice())
    }
}

/// Whose the fields are of what has this type.
fn fields_of(form: Option<Form>) -> Option<usize>
    ensures { result ≡ fields_of form }
{
    match form {
        Some(Form::Struct(fields)) => Some(fields),
        _ => None,
    }
}

/// Whose the fields are of the reference before the dot that is the last of the tokens.
fn field_owner(
    alloc: Global,
    found: &Readable,
    place: TypedPlace<'_>,
    tokens: &[Token<'_>],
) -> Result<Option<usize>, AllocError>
    ensures { IfOk result (λ o. o ≡ field_owner found.now place.entry tokens.now) }
{
    let owner = own_owner(found, place.standing);
    let front = match tokens {
        [front @ .., _] => front,
        [] => tokens,
    };
    let all = found.names.declarations.as_slice();
    let form = form_behind(alloc, &found.text, all, owner, front)?;
    Ok(fields_of(form))
}

/// Adds the fields that may stand there.
fn add_fields(
    out: &mut Vec<Declaration>,
    alloc: Global,
    found: &Readable,
    place: TypedPlace<'_>,
    tokens: &[Token<'_>],
) -> Result<(), AllocError>
    ensures { OnOk result (out.new.items ≡ out.old.items ++ fields_at found.now place.entry tokens.now) }
{
    let Some(owner) = field_owner(alloc, found, place, tokens)? else {
        return Ok(());
    };
    let wish = SoughtNames {
        asked: place.asked,
        owner,
        offset: found.offset,
        typed: place.typed,
    };
    add_offered(out, &found.text, wish, found.names.declarations.as_slice())
}

/// Adds the names of the unit that may stand there.
fn add_own(
    out: &mut Vec<Declaration>,
    found: &Readable,
    place: TypedPlace<'_>,
) -> Result<(), AllocError>
    ensures { OnOk result (out.new.items ≡ out.old.items ++ own_names found.now place.entry) }
{
    let owner = own_owner(found, place.standing);
    if owner == 0 {
        return Ok(());
    }
    let wish = SoughtNames {
        asked: place.asked,
        owner,
        offset: found.offset,
        typed: place.typed,
    };
    if place.standing.is_inline {
        add_offered(
            out,
            &found.text,
            wish,
            found.names.inlines.declarations.as_slice(),
        )
    } else {
        add_offered(out, &found.text, wish, found.names.declarations.as_slice())
    }
}

/// Adds the global names that may stand there, those of inlines last.
fn add_others(
    out: &mut Vec<Declaration>,
    found: &Readable,
    place: TypedPlace<'_>,
) -> Result<(), AllocError>
    ensures { OnOk result (out.new.items ≡ out.old.items ++ other_names found.now place.entry) }
{
    let wish = SoughtNames {
        asked: place.asked,
        owner: 0,
        offset: found.offset,
        typed: place.typed,
    };
    add_offered(out, &found.text, wish, found.names.declarations.as_slice())?;
    add_offered(
        out,
        &found.text,
        wish,
        found.names.inlines.declarations.as_slice(),
    )
}

/// The names that may stand there: fields behind a dot, and else those of the unit first.
fn names_at(
    alloc: Global,
    found: &Readable,
    place: TypedPlace<'_>,
    tokens: &[Token<'_>],
) -> Result<Vec<Declaration>, AllocError>
    ensures { IfOk result (λ ds. ds.items ≡ names_at found.now place.entry tokens.now) }
{
    let mut out = Vec::new(alloc);
    match place.asked {
        Fitting::Field => add_fields(&mut out, alloc, found, place, tokens)?,
        Fitting::Any | Fitting::Proctype | Fitting::Label | Fitting::Message => {
            add_own(&mut out, found, place)?;
            add_others(&mut out, found, place)?;
        }
    }
    Ok(out)
}

/// So many of them at most.
fn front(names: &[Declaration], count: usize) -> &[Declaration]
    ensures { result.now ≡ take count names.now }
{
    if count < names.len() {
        &names[..count]
    } else {
        names
    }
}

/// Those of some words that begin as typed.
fn some_words(alloc: Global, typed: &[u8], some: &[&str]) -> Result<Vec<Value>, AllocError>
    ensures { IfOk result (λ list. AreWords typed.now (map view list.items)) }
{
    words(alloc, typed, some)
}

/// The words that may stand there.
fn words_at(alloc: Global, place: TypedPlace<'_>) -> Result<Vec<Value>, AllocError>
    ensures { IfOk result (λ list. AreWords place.entry.typed.now (map view list.items)) }
{
    match place.asked {
        Fitting::Any if place.standing.depth > 0 => some_words(alloc, place.typed, &IN_A_BODY),
        Fitting::Any => some_words(alloc, place.typed, &OUTSIDE),
        _ => Ok(Vec::new(alloc)),
    }
}

/// The names that may stand there, as values of JSON, and whether some are left out.
fn items_at(
    alloc: Global,
    found: &Readable,
    place: TypedPlace<'_>,
    tokens: &[Token<'_>],
) -> Result<OfferedItems, AllocError>
    ensures { IfOk result (λ o. AreOffered found.now place.entry tokens.now o) }
{
    let names = names_at(alloc, found, place, tokens)?;
    let all = found.names.declarations.as_slice();
    let some = front(&names, MOST_NAMES);
    Ok(OfferedItems {
        items: items(alloc, &found.text, all, place.asked, some)?,
        is_cut: MOST_NAMES < names.len(),
    })
}

/// What may be typed at a place, as a list of JSON.
fn told(
    alloc: Global,
    found: &Option<Readable>,
    place: TypedPlace<'_>,
    tokens: &[Token<'_>],
) -> Result<Value, AllocError>
    ensures { IfOk result (λ v. IsList found.now place.entry tokens.now (view v)) }
{
    let mut offered = match found {
        Some(found) => items_at(alloc, found, place, tokens)?,
        None => OfferedItems {
            items: Vec::new(alloc),
            is_cut: false,
        },
    };
    let mut words = words_at(alloc, place)?;
    offered.items.append(&mut words)?;
    let items = Value::Array(offered.items);
    let is_cut = offered.is_cut;
    json!(in alloc; {"isIncomplete": is_cut, "items": items})
}

/// What may be typed at a place; nothing within a comment or a string.
pub fn completion(alloc: Global, page: Page<'_>, offset: usize) -> Result<Value, AllocError>
    ensures { IfOk result (λ v. IsCompletion page.entry offset (view v)) }
{
    let tokens = match placed(alloc, between(page.text, 0, offset)) {
        Ok(tokens) => tokens,
        Err(LexError::Memory) => return Err(AllocError),
        Err(_) => return Ok(Value::Null),
    };
    let before = before_typed(&tokens, offset);
    let found = readable_at(alloc, page.text, before, offset)?;
    let place = TypedPlace {
        typed: typed_in(&tokens, offset),
        asked: asked_behind(before),
        standing: stands(before),
    };
    told(alloc, &found, place, before)
}
