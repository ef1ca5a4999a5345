//! What a declared name is, for an editor.

ghost use Rattle.std.specs.Prelude.{◌≡◌, find};
ghost use Rattle.std.specs.List.{list_any};
ghost use Rattle.lsp_results.specs.Sorts.{holds, sort_of, sort_in, number_of, words_of, is_declared_at, declared_at, sort_at};

use model_names::{Declaration, Stands, TextNames};
use promela_model::thing::Thing;

/// What a declared name is.
#[derive(Clone, Copy, Debug, PartialEq, Eq)]
pub enum DeclaredSort {
    Variable,
    Field,
    Constant,
    Typedef,
    Proctype,
    Label,
    Inline,
    Parameter,
}

impl DeclaredSort {
    /// The number that editors give what is most like it (LSP 3.17, `SymbolKind`).
    pub fn number(self) -> usize
        ensures { result ≡ number_of self }
    {
        match self {
            DeclaredSort::Variable => 13,
            DeclaredSort::Field => 8,
            DeclaredSort::Constant => 22,
            DeclaredSort::Typedef => 23,
            DeclaredSort::Proctype => 5,
            DeclaredSort::Label => 20,
            DeclaredSort::Inline => 12,
            DeclaredSort::Parameter => 13,
        }
    }

    /// What it is called.
    pub fn words(self) -> &'static str
        ensures { result.now ≡ words_of self }
    {
        match self {
            DeclaredSort::Variable => "variable",
            DeclaredSort::Field => "field",
            DeclaredSort::Constant => "mtype name",
            DeclaredSort::Typedef => "typedef",
            DeclaredSort::Proctype => "proctype",
            DeclaredSort::Label => "label",
            DeclaredSort::Inline => "inline",
            DeclaredSort::Parameter => "parameter of an inline",
        }
    }
}

/// Whether a declaration is that of the typedef whose fields have this owner.
fn holds(declaration: &Declaration, owner: usize) -> bool
    ensures { result ≡ holds owner declaration.now }
{
    match declaration.stands {
        Stands::Thing(Thing::Typedef(fields, _)) => fields == owner,
        _ => false,
    }
}

fn is_field(declarations: &[Declaration], owner: usize) -> bool
    ensures { result ≡ list_any (holds owner) declarations.now }
{
    declarations.iter().any(|d| holds(d, owner))
}

fn sort_of(stands: Stands) -> DeclaredSort
    ensures { result ≡ sort_of stands }
{
    match stands {
        Stands::Thing(Thing::Variable(_)) => DeclaredSort::Variable,
        Stands::Thing(Thing::Constant(_)) => DeclaredSort::Constant,
        Stands::Thing(Thing::Typedef(_, _)) => DeclaredSort::Typedef,
        Stands::Thing(Thing::Proctype(_, _)) => DeclaredSort::Proctype,
        Stands::Label => DeclaredSort::Label,
        Stands::Inline => DeclaredSort::Inline,
        Stands::Parameter => DeclaredSort::Parameter,
    }
}

/// What a declaration is among all of a text but those of inlines.
pub fn sort_in(declarations: &[Declaration], declaration: &Declaration) -> DeclaredSort
    ensures { result ≡ sort_in declarations.now declaration.now }
{
    match sort_of(declaration.stands) {
        DeclaredSort::Variable if is_field(declarations, declaration.owner) => DeclaredSort::Field,
        sort => sort,
    }
}

fn is_declared_at(declaration: &Declaration, at: usize) -> bool
    ensures { result ≡ is_declared_at at declaration.now }
{
    declaration.at == at
}

/// The first of these declarations that stands at a place.
fn declared_at(declarations: &[Declaration], at: usize) -> Option<Declaration>
    ensures { result ≡ find (is_declared_at at) declarations.now }
{
    for declaration in declarations {
        if is_declared_at(declaration, at) {
            return Some(*declaration);
        }
    }
    None
}

/// What the name is that is declared at a place: an inline or its parameter first.
pub fn sort_at(names: &TextNames, at: usize) -> Option<DeclaredSort>
    ensures { result ≡ sort_at names.now at }
{
    let declarations = names.declarations.as_slice();
    match declared_at(names.inlines.declarations.as_slice(), at) {
        Some(found) => Some(sort_in(declarations, &found)),
        None => match declared_at(declarations, at) {
            Some(found) => Some(sort_in(declarations, &found)),
            None => None,
        },
    }
}
