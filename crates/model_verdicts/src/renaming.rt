//! A name, renamed.

ghost use Rattle.std.specs.Prelude.{◌≡◌, true, IfOk, IfSome};
ghost use Rattle.std.specs.List.{list_any};
ghost use Rattle.std.specs.Bool.{OnTrue};
ghost use Rattle.model_names.specs.Told.{AreMeant};
ghost use Rattle.model_names.specs.Found.{name_at, is_label_there};
ghost use Rattle.model_verdicts.specs.Alike.{AreMoved};
ghost use Rattle.model_verdicts.specs.Renamed.{name_in, IsRenaming, IsReplaced, IsValid};

use crate::alike::{ExchangedNames, are_moved};
use crate::parts::{front_of, is_name};
use crate::replaced::replaced;
use crate::verdict::verdict_of;
use diagnostics::Refusal;
use model_names::{Occurrence, TextNames, names_of};
use source_lines::position::between;
use std::alloc::{AllocError, Global};

/// Why a name is not renamed.
#[derive(Clone, Copy, Debug, PartialEq, Eq)]
pub enum NoRenaming {
    /// The text stands for no model.
    NoModel,
    /// No name stands there that the text declares.
    NoName,
    /// The new name is none, or a word of the language.
    NotAName,
    /// It is a label, and one of the two names begins with `end`, `progress` or `accept`, which means more.
    Label,
    /// The renamed text is refused.
    Refused(Refusal),
    /// A name would mean something else.
    OtherMeaning,
}

/// A renamed text.
#[derive(Drop)]
pub struct Renaming {
    /// Where the name stood, in the order of the text.
    pub places: Vec<usize>,
    /// How many bytes it had.
    pub length: usize,
    pub text: Vec<u8>,
}

/// The bytes of a name.
fn name_in<'t>(text: &'t [u8], found: Occurrence) -> &'t [u8]
    ensures { result.now ≡ name_in text.now found }
{
    between(text, found.at, found.at.saturating_add(found.length))
}

/// The name at a place that can be renamed.
pub fn target_at(
    alloc: Global,
    text: &[u8],
    names: &TextNames,
    offset: usize,
) -> Result<Option<Occurrence>, AllocError>
    ensures { IfOk result (λ o. IfSome o (λ f. name_at names.now offset ≡ Some f)) }
{
    let Some(found) = names.at(offset) else {
        return Ok(None);
    };
    if is_name(alloc, name_in(text, found))? {
        Ok(Some(found))
    } else {
        Ok(None)
    }
}

/// Whether a label would mean more or less by how it begins.
fn is_other_label(names: &TextNames, text: &[u8], found: Occurrence, name: &[u8]) -> bool
    ensures { OnTrue result (list_any (is_label_there found.declared) names.now.declarations.items ≡ true) }
{
    names.has_label(found.declared) && front_of(name_in(text, found)) != front_of(name)
}

fn is_same(names: &TextNames, other: &TextNames, exchange: ExchangedNames<'_>) -> bool
    ensures { OnTrue result (AreMoved exchange.entry.places.now exchange.entry.before exchange.entry.then names.now.meant.items other.now.meant.items) }
{
    are_moved(exchange, &names.meant, &other.meant)
        && are_moved(exchange, &names.inlines.meant, &other.inlines.meant)
}

/// The renamed text, if it stands for a model in which each name means what it meant.
fn validated(
    alloc: Global,
    names: &TextNames,
    renaming: Renaming,
    then: usize,
) -> Result<Result<Renaming, NoRenaming>, AllocError>
    ensures { IfOk result (λ r. IfOk r (λ v. (v ≡ renaming) × IsValid names.now.meant.items then v)) }
{
    if let Some(verdict) = verdict_of(alloc, &renaming.text)? {
        return Ok(Err(NoRenaming::Refused(verdict.refusal)));
    }
    let Some(other) = names_of(alloc, &renaming.text)? else {
        return Ok(Err(NoRenaming::OtherMeaning));
    };
    let exchange = ExchangedNames {
        places: &renaming.places,
        before: renaming.length,
        then,
    };
    if is_same(names, &other, exchange) {
        Ok(Ok(renaming))
    } else {
        Ok(Err(NoRenaming::OtherMeaning))
    }
}

/// The text in which a name is exchanged for another wherever it means the same.
fn exchanged(
    alloc: Global,
    text: &[u8],
    names: &TextNames,
    found: Occurrence,
    name: &[u8],
) -> Result<Renaming, AllocError>
    ensures { IfOk result (IsReplaced text.now name.now) }
{
    let places = names.places_of(alloc, found.declared)?;
    let text = replaced(alloc, text, &places, found.length, name)?;
    Ok(Renaming {
        places,
        length: found.length,
        text,
    })
}

/// The text in which the name at a place is called otherwise, where it stands for the same model then, up to the name: it has a model as before, and
/// each name means what it meant. `names` are those of the text.
pub fn renamed(
    alloc: Global,
    text: &[u8],
    names: &TextNames,
    offset: usize,
    name: &[u8],
) -> Result<Result<Renaming, NoRenaming>, AllocError>
    requires { AreMeant text.now names.now.meant.items }
    ensures { IfOk result (λ r. IfOk r (IsRenaming text.now name.now)) }
{
    if verdict_of(alloc, text)?.is_some() {
        return Ok(Err(NoRenaming::NoModel));
    }
    let Some(found) = target_at(alloc, text, names, offset)? else {
        return Ok(Err(NoRenaming::NoName));
    };
    if !is_name(alloc, name)? {
        return Ok(Err(NoRenaming::NotAName));
    }
    if is_other_label(names, text, found, name) {
        return Ok(Err(NoRenaming::Label));
    }
    let renaming = exchanged(alloc, text, names, found, name)?;
    validated(alloc, names, renaming, name.len())
}
