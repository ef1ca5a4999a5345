//! How often inlines declare one name, and whether some body does so several times.

ghost use Rattle.std.specs.Prelude.{◌≡◌, IfOk, OnOk};
ghost use Rattle.names_apart.specs.Tallies as tallies;

use crate::scope::{MOST_NUMBER, NameScope, is_name};
use pml_token::token::{Kind, same_kind};
use prepare::stretch::Stretch;
use std::alloc::{AllocError, Global};
use std::marker::Model;

/// How often an inline declares the name, with all that it calls.
#[derive(Drop)]
pub struct InlineCount<'t> {
    inline: &'t [u8],
    count: u32,
}

impl<'t> Model for InlineCount<'t> {
    ghost use Rattle.names_apart.specs.InlineCount.{InlineCount as Seen};

    ghost Value = { Seen };

    ghost view = { λ c. record { inline = c.inline.now; count = c.count } };
}

impl<'t> InlineCount<'t> {
    /// An inline that declares the name so often.
    pub(crate) fn new(inline: &'t [u8], count: u32) -> InlineCount<'t>
        ensures { result ≡ record { inline = inline.now; count = count } }
    {
        InlineCount { inline, count }
    }

    /// What the inline is called.
    pub fn inline(&self) -> &'t [u8]
        ensures { result.now ≡ self.now.inline }
    {
        self.inline
    }

    /// How often it declares the name.
    pub fn count(&self) -> u32
        ensures { result ≡ self.now.count }
    {
        self.count
    }
}

fn count_of(table: &[InlineCount<'_>], token: &[u8]) -> u32
    ensures { result ≡ tallies.count_of table.now token.now }
{
    let mut rest = table;
    while let [counted, back @ ..] = rest {
        if counted.inline() == token {
            return counted.count();
        }
        rest = back;
    }
    0
}

/// How often the inline declares the name that a token is the name of; 0 where it is none.
pub fn count_at(table: &[InlineCount<'_>], kind: Kind, token: &[u8]) -> u32
    ensures { result ≡ tallies.count_at table.now kind token.now }
{
    if same_kind(kind, Kind::Name) {
        count_of(table, token)
    } else {
        0
    }
}

/// How often inlines declare a name, and what is known of all bodies.
#[derive(Drop)]
pub struct DeclarationTally<'t> {
    /// The inlines that declare it.
    pub table: Vec<InlineCount<'t>>,
    /// How often a body that is no inline's declares it at most.
    pub most: u32,
    /// Whether it is used where no declaration is in force, or declared outside of bodies.
    pub is_left: bool,
}

// Whether a token is the name where no declaration of it is in force.
fn is_free(scope: NameScope, name: &[u8], kind: Kind, token: &[u8]) -> bool
    ensures { result ≡ tallies.is_free scope name.now kind token.now }
{
    let is_variable = is_name(name, kind, token) && !scope.is_field;
    let is_within = scope.braces > 0 && !scope.reading.is_fields;
    let is_unknown = !scope.declares(name, kind, token) && !scope.is_parameter;
    is_variable && (is_within && (is_unknown && scope.force.level == 0))
}

// Whether a token declares the name outside of bodies and of heads.
fn is_global(scope: NameScope, name: &[u8], kind: Kind, token: &[u8]) -> bool
    ensures { result ≡ tallies.is_global scope name.now kind token.now }
{
    let is_outside = scope.braces == 0 && (scope.parens == 0 && !scope.is_header());
    is_outside && scope.declares(name, kind, token)
}

fn most_behind(most: u32, scope: NameScope, name: &[u8], kind: Kind, token: &[u8]) -> u32
    ensures { result ≡ tallies.most_behind most scope name.now kind token.now }
{
    if scope.is_inline {
        return most;
    }
    most.max(scope.force_behind(name, kind, token).number)
}

fn front<'t>(stretches: &[Stretch<'t>]) -> &'t [u8]
    ensures { result.now ≡ tallies.front stretches.now }
{
    match stretches {
        [stretch, ..] => stretch.token(),
        _ => b"",
    }
}

pub(crate) fn home_behind<'t>(home: &'t [u8], kind: Kind, back: &[Stretch<'t>]) -> &'t [u8]
    ensures { result.now ≡ tallies.home_behind home.now kind back.now }
{
    if same_kind(kind, Kind::Inline) {
        front(back)
    } else {
        home
    }
}

// Adds the inline whose body a token ends, if it declares the name.
fn add_counted<'t>(
    table: &mut Vec<InlineCount<'t>>,
    scope: NameScope,
    home: &'t [u8],
    kind: Kind,
) -> Result<(), AllocError>
    ensures { OnOk result (table.new.items ≡ tallies.table_behind table.old.items scope home.now kind) }
{
    let count = scope.force.number;
    if scope.is_inline && (scope.ends_body(kind) && count > 0) {
        table.push(InlineCount {
            inline: home,
            count,
        })?;
    }
    Ok(())
}

/// What is known of a name in a text.
pub fn tally_of<'t>(
    alloc: Global,
    name: &[u8],
    stretches: &[Stretch<'t>],
) -> Result<DeclarationTally<'t>, AllocError>
    ensures { IfOk result (λ t. tallies.as_tallied t.table.items t.most t.is_left ≡ tallies.tallied name.now stretches.now) }
{
    let mut table: Vec<InlineCount<'t>> = Vec::new(alloc);
    let mut scope = NameScope::start();
    let mut home: &'t [u8] = b"";
    let mut most = 0;
    let mut is_left = false;
    let mut rest = stretches;
    while let [stretch, back @ ..] = rest {
        let kind = stretch.kind();
        let token = stretch.token();
        add_counted(&mut table, scope, home, kind)?;
        most = most_behind(most, scope, name, kind, token);
        is_left = is_left
            || (is_free(scope, name, kind, token) || is_global(scope, name, kind, token));
        home = home_behind(home, kind, back);
        scope = scope.behind(name, count_at(&table, kind, token), kind, token);
        rest = back;
    }
    Ok(DeclarationTally {
        table,
        most,
        is_left,
    })
}

impl<'t> DeclarationTally<'t> {
    /// Whether the declarations of the name get names of their own: a body has several, each use has one in force, and none is outside of bodies.
    pub fn is_divided(&self) -> bool
        ensures { result ≡ tallies.is_divided self.now.most self.now.is_left }
    {
        self.most > 1 && (self.most < MOST_NUMBER && !self.is_left)
    }
}
