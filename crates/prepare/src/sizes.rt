//! The sizes of arrays, as a text declares them.

ghost use Rattle.std.specs.Prelude.{◌≡◌, Some, IfOk, OnOk};
ghost use Rattle.prepare.specs.Sizes as sizes;
ghost use Rattle.prepare.specs.Found.{size_in, AreSizes, AreNoted};

use crate::context::deeper;
use crate::markers::{MOST_LINE, number};
use crate::stretch::Stretch;
use pml_token::token::{Kind, same_kind};
use std::alloc::{AllocError, Global};
use std::collections::BTreeMap;

/// What the last token says of a name behind it.
#[derive(Clone, Copy)]
pub enum Lead {
    /// It is a type, or may be the name of one.
    Type,
    /// It is a comma, behind which a declaration may go on.
    Comma,
    /// Nothing.
    Other,
}

/// What is known of declarations before a token.
#[derive(Clone, Copy)]
pub struct DeclarationReading {
    pub lead: Lead,
    /// Whether a declaration goes on.
    pub goes_on: bool,
    /// How many brackets are open since it began, or since the `typedef` did.
    pub depth: u32,
    /// Whether this is a typedef, whose names are fields.
    pub is_fields: bool,
    /// Whether these are the names of an inline and of its parameters.
    pub is_header: bool,
}

fn names_type(kind: Kind) -> bool
    ensures { result ≡ sizes.names_type kind }
{
    matches!(
        kind,
        Kind::Bit
            | Kind::Bool
            | Kind::Byte
            | Kind::Chan
            | Kind::Int
            | Kind::Mtype
            | Kind::Pid
            | Kind::Short
            | Kind::Unsigned
    )
}

/// Whether a token is the `in` of a `for`.
pub(crate) fn is_in(kind: Kind, token: &[u8]) -> bool
    ensures { result ≡ sizes.is_in kind token.now }
{
    same_kind(kind, Kind::Name) && token == b"in".as_slice()
}

fn may_be_type(kind: Kind, token: &[u8]) -> bool
    ensures { result ≡ sizes.may_be_type kind token.now }
{
    names_type(kind) || (same_kind(kind, Kind::Name) && token != b"in".as_slice())
}

fn lead_of(kind: Kind, token: &[u8]) -> Lead
    ensures { result ≡ sizes.lead_of kind token.now }
{
    if may_be_type(kind, token) {
        Lead::Type
    } else if same_kind(kind, Kind::Comma) {
        Lead::Comma
    } else {
        Lead::Other
    }
}

fn is_led(lead: Lead, goes_on: bool) -> bool
    ensures { result ≡ sizes.is_led lead goes_on }
{
    match lead {
        Lead::Type => true,
        Lead::Comma => goes_on,
        Lead::Other => false,
    }
}

fn is_opening(kind: Kind) -> bool
    ensures { result ≡ sizes.is_opening kind }
{
    matches!(kind, Kind::OpenBrace | Kind::OpenParen | Kind::OpenBracket)
}

fn is_closing(kind: Kind) -> bool
    ensures { result ≡ sizes.is_closing kind }
{
    matches!(
        kind,
        Kind::CloseBrace | Kind::CloseParen | Kind::CloseBracket
    )
}

fn is_separator(kind: Kind) -> bool
    ensures { result ≡ sizes.is_separator kind }
{
    matches!(kind, Kind::Semicolon | Kind::Arrow | Kind::DoubleColon)
}

fn depth_behind(depth: u32, kind: Kind) -> u32
    ensures { result ≡ sizes.depth_behind depth kind }
{
    if is_opening(kind) {
        deeper(depth)
    } else if is_closing(kind) {
        depth.saturating_sub(1)
    } else {
        depth
    }
}

fn elements(digits: &[u8]) -> u32
    ensures { result ≡ sizes.elements digits.now }
{
    let number = number(digits);
    if number <= MOST_LINE { number } else { 0 }
}

/// The size that stands at the front of stretches, or 0.
fn size_at(stretches: &[Stretch<'_>]) -> u32
    ensures { result ≡ sizes.size_at stretches.now }
{
    match stretches {
        [opening, number, closing, ..] => {
            if same_kind(opening.kind(), Kind::OpenBracket)
                && (same_kind(number.kind(), Kind::Number)
                    && same_kind(closing.kind(), Kind::CloseBracket))
            {
                elements(number.token())
            } else {
                0
            }
        }
        _ => 0,
    }
}

impl DeclarationReading {
    /// The beginning of a text.
    pub fn start() -> DeclarationReading
        ensures { result ≡ sizes.start }
    {
        DeclarationReading {
            lead: Lead::Other,
            goes_on: false,
            depth: 0,
            is_fields: false,
            is_header: false,
        }
    }

    /// Whether a token of this kind is a name that is declared.
    pub fn declares(self, kind: Kind) -> bool
        ensures { result ≡ sizes.declares self kind }
    {
        same_kind(kind, Kind::Name)
            && (self.is_header
                || (!self.is_fields && is_led(self.lead, self.goes_on && self.depth == 0)))
    }

    fn ends(self, kind: Kind) -> bool
        ensures { result ≡ sizes.ends self kind }
    {
        self.depth == 0 && (is_separator(kind) || is_closing(kind))
    }

    fn ends_fields(self, kind: Kind) -> bool
        ensures { result ≡ sizes.ends_fields self kind }
    {
        same_kind(kind, Kind::CloseBrace) && self.depth < 2
    }

    /// What is known behind a token.
    pub fn behind(self, kind: Kind, token: &[u8]) -> DeclarationReading
        ensures { result ≡ sizes.behind self kind token.now }
    {
        let is_typedef = same_kind(kind, Kind::Typedef);
        let declares = self.declares(kind);
        DeclarationReading {
            lead: lead_of(kind, token),
            goes_on: declares || (self.goes_on && !(is_typedef || self.ends(kind))),
            depth: if is_typedef || declares {
                0
            } else {
                depth_behind(self.depth, kind)
            },
            is_fields: is_typedef || (self.is_fields && !self.ends_fields(kind)),
            is_header: same_kind(kind, Kind::Inline)
                || (self.is_header && !same_kind(kind, Kind::CloseParen)),
        }
    }

    /// The size that is declared before these stretches.
    fn size_behind(self, stretches: &[Stretch<'_>]) -> u32
        ensures { result ≡ sizes.size_behind self stretches.now }
    {
        if self.is_header {
            0
        } else {
            size_at(stretches)
        }
    }
}

fn joined(known: Option<u32>, size: u32) -> u32
    ensures { Some result ≡ sizes.joined known size }
{
    match known {
        Some(known) => { if known == size { known } else { 0 } }
        None => size,
    }
}

/// The sizes of names, each as all its declarations have it.
#[derive(Drop)]
pub(crate) struct ArraySizes<'t> {
    numbers: BTreeMap<&'t [u8], u32>,
}

impl<'t> ArraySizes<'t> {
    /// The size of a name, 0 where its declarations do not agree in one.
    pub(crate) fn find(&self, name: &[u8]) -> Option<u32>
        ensures { result ≡ size_in self.now.numbers name.now }
    {
        self.numbers.get(name).copied()
    }
}

/// Notes what one stretch declares, where `back` are those behind it.
fn note<'t>(
    numbers: &mut BTreeMap<&'t [u8], u32>,
    reading: DeclarationReading,
    stretch: &Stretch<'t>,
    back: &[Stretch<'t>],
) -> Result<(), AllocError>
    ensures { OnOk result (AreNoted numbers.old numbers.new (sizes.declared_at reading stretch.now back.now)) }
{
    let name = stretch.token();
    if reading.declares(stretch.kind()) {
        let known = numbers.get(name).copied();
        numbers.insert(name, joined(known, reading.size_behind(back)))?;
    }
    Ok(())
}

/// The sizes of all names that stretches declare.
pub(crate) fn sizes_of<'t>(
    alloc: Global,
    stretches: &[Stretch<'t>],
) -> Result<ArraySizes<'t>, AllocError>
    ensures { IfOk result (λ s. AreSizes s.numbers stretches.now) }
{
    let mut numbers: BTreeMap<&'t [u8], u32> = BTreeMap::new(alloc);
    let mut reading = DeclarationReading::start();
    let mut rest = stretches;
    while let [stretch, back @ ..] = rest {
        note(&mut numbers, reading, stretch, back)?;
        reading = reading.behind(stretch.kind(), stretch.token());
        rest = back;
    }
    Ok(ArraySizes { numbers })
}
