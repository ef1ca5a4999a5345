//! The reference that stands before a dot, and of which type it is.

ghost use Rattle.std.specs.Prelude.{◌≡◌, ◌≤◌, ◌<◌, ◌+◌, ◌^◌, ℕ, find, IfOk};
ghost use Rattle.offered_names.specs.References.{opened, after_name, within_index, after_dot, next, is_read, read, is_called, form_of, form_found, form_named, form_within, stepped, form_read};

use crate::offers::name_in;
use declared_names::declared::{Declaration, Stands};
use pml_program::form::Form;
use pml_token::token::{Kind, Token, same_kind};
use promela_model::thing::Thing;
use std::alloc::{AllocError, Global};

/// What is read next of a reference, from its end on.
#[derive(Clone, Copy, Debug, PartialEq, Eq)]
pub enum Link {
    /// A name, or an index behind it.
    Name,
    /// An index, of which so many brackets are open.
    Index(usize),
    Dot,
    /// The reference has begun.
    Begun,
}

/// How many brackets are open then.
fn opened(link: Link) -> usize
    ensures { result ≡ opened link }
{
    match link {
        Link::Index(count) => count,
        _ => 0,
    }
}

fn after_name(kind: Kind) -> Link
    ensures is { result ≡ after_name kind }
    ensures few { opened result ≤ 1 }
{
    if same_kind(kind, Kind::Name) {
        Link::Dot
    } else if same_kind(kind, Kind::CloseBracket) {
        Link::Index(1)
    } else {
        Link::Begun
    }
}

fn within_index(count: usize, kind: Kind) -> Link
    requires { count + 1 < 2 ^ 64 }
    ensures is { result ≡ within_index count kind }
    ensures few { opened result ≤ count + 1 }
{
    if same_kind(kind, Kind::CloseBracket) {
        Link::Index(count + 1)
    } else if !same_kind(kind, Kind::OpenBracket) {
        Link::Index(count)
    } else if count < 2 {
        Link::Name
    } else {
        Link::Index(count - 1)
    }
}

fn after_dot(kind: Kind) -> Link
    ensures is { result ≡ after_dot kind }
    ensures few { opened result ≤ 0 }
{
    if same_kind(kind, Kind::Dot) {
        Link::Name
    } else {
        Link::Begun
    }
}

/// What is read next, before one more token.
fn next(link: Link, kind: Kind) -> Link
    requires { opened link + 1 < 2 ^ 64 }
    ensures is { result ≡ next link kind }
    ensures few { opened result ≤ opened link + 1 }
{
    match link {
        Link::Name => after_name(kind),
        Link::Index(count) => within_index(count, kind),
        Link::Dot => after_dot(kind),
        Link::Begun => Link::Begun,
    }
}

/// Whether a token is a name of the reference.
fn is_read(link: Link, kind: Kind) -> bool
    ensures { result ≡ is_read link kind }
{
    match link {
        Link::Name => same_kind(kind, Kind::Name),
        _ => false,
    }
}

/// The names of the reference that stands before the dot behind these tokens, the last one first.
fn names_before<'a>(alloc: Global, tokens: &[Token<'a>]) -> Result<Vec<Token<'a>>, AllocError>
    ensures { IfOk result (λ ns. ns.items ≡ (read tokens.now).names) }
{
    let mut names = Vec::new(alloc);
    let mut link = Link::Name;
    for i in (0..tokens.len()).rev() {
        let token = &tokens[i];
        if is_read(link, token.kind()) {
            names.push(token.copied())?;
        }
        link = next(link, token.kind());
    }
    Ok(names)
}

fn is_called(text: &[u8], owner: usize, name: &[u8], declaration: &Declaration) -> bool
    ensures { result ≡ is_called text.now owner name.now declaration.now }
{
    declaration.owner == owner && name_in(text, declaration) == name
}

/// The first of these declarations that is an owner's of this name.
fn called(
    text: &[u8],
    owner: usize,
    name: &[u8],
    declarations: &[Declaration],
) -> Option<Declaration>
    ensures { result ≡ find (is_called text.now owner name.now) declarations.now }
{
    for declaration in declarations {
        if is_called(text, owner, name, declaration) {
            return Some(*declaration);
        }
    }
    None
}

/// The type of what is declared.
fn form_of(declaration: Declaration) -> Form
    ensures { result ≡ form_of declaration }
{
    match declaration.stands {
        Stands::Thing(Thing::Variable(variable)) => variable.form,
        _ => Form::Unknown,
    }
}

/// The type of the first of these that is declared.
fn form_found(own: Option<Declaration>, global: Option<Declaration>) -> Form
    ensures { result ≡ form_found own global }
{
    match (own, global) {
        (Some(declaration), _) => form_of(declaration),
        (None, Some(declaration)) => form_of(declaration),
        (None, None) => Form::Unknown,
    }
}

/// The type of a name that stands where the names of an owner do: its own first, and then the global one.
fn form_named(text: &[u8], declarations: &[Declaration], owner: usize, name: &[u8]) -> Form
    ensures { result ≡ form_named text.now declarations.now owner name.now }
{
    let own = called(text, owner, name, declarations);
    let global = called(text, 0, name, declarations);
    form_found(own, global)
}

/// The type of a field.
fn form_within(text: &[u8], declarations: &[Declaration], form: Form, name: &[u8]) -> Form
    ensures { result ≡ form_within text.now declarations.now form name.now }
{
    match form {
        Form::Struct(fields) => form_found(called(text, fields, name, declarations), None),
        _ => Form::Unknown,
    }
}

/// The type of one name more, behind those before it, if there are some.
fn stepped(
    text: &[u8],
    declarations: &[Declaration],
    owner: usize,
    before: Option<Form>,
    name: &[u8],
) -> Form
    ensures { result ≡ stepped text.now declarations.now owner before name.now }
{
    match before {
        Some(form) => form_within(text, declarations, form, name),
        None => form_named(text, declarations, owner, name),
    }
}

/// The type of a reference with these names, the last one first.
fn form_read(
    text: &[u8],
    declarations: &[Declaration],
    owner: usize,
    names: &[Token<'_>],
) -> Option<Form>
    ensures { result ≡ form_read text.now declarations.now owner names.now }
{
    let mut form = None;
    for i in (0..names.len()).rev() {
        form = Some(stepped(text, declarations, owner, form, names[i].text()));
    }
    form
}

/// The type of the reference that stands before the dot behind these tokens, where the names of an owner stand.
pub fn form_behind(
    alloc: Global,
    text: &[u8],
    declarations: &[Declaration],
    owner: usize,
    tokens: &[Token<'_>],
) -> Result<Option<Form>, AllocError>
    ensures { IfOk result (λ f. f ≡ form_read text.now declarations.now owner (read tokens.now).names) }
{
    let names = names_before(alloc, tokens)?;
    Ok(form_read(text, declarations, owner, names.as_slice()))
}
