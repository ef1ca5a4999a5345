//! The variables that are records.

ghost use Rattle.std.specs.Prelude.{◌≡◌, ◌++◌, IfOk, OnOk};
ghost use Rattle.record_messages.specs.declared.variables.TheConstants.{MOST_RECORDS};
ghost use Rattle.record_messages.specs.Variables as as_variables;

use crate::members::{Member, either, is_record};
use pml_token::token::{Kind, same_kind};
use prepare::sizes::{DeclarationReading, Lead};
use prepare::stretch::Stretch;
use std::alloc::{AllocError, Global};
use std::marker::Model;

/// At most so many declarations of records are looked at.
pub const MOST_RECORDS: usize = 256;

/// The name of a longer one stays.
pub const MOST_LENGTH: usize = 64;

/// A name that is declared.
#[derive(Drop)]
pub struct DeclaredName<'t> {
    name: &'t [u8],
    word: &'t [u8],
}

impl<'t> Model for DeclaredName<'t> {
    ghost use Rattle.record_messages.specs.DeclaredName.{DeclaredName as Seen};

    ghost Value = { Seen };

    ghost view = { λ v. record { name = v.name.now; word = v.word.now } };
}

impl<'t> DeclaredName<'t> {
    /// The name.
    pub fn name(&self) -> &'t [u8]
        ensures { result.now ≡ self.now.name }
    {
        self.name
    }

    /// Its type; nothing for an array and for a parameter of an inline.
    pub fn word(&self) -> &'t [u8]
        ensures { result.now ≡ self.now.word }
    {
        self.word
    }
}

/// Whether a token of this kind stands at the front of stretches.
pub(crate) fn begins_with(kind: Kind, stretches: &[Stretch<'_>]) -> bool
    ensures { result ≡ as_variables.begins_with kind stretches.now }
{
    match stretches {
        [stretch, ..] => same_kind(stretch.kind(), kind),
        _ => false,
    }
}

fn is_led_by_type(lead: Lead) -> bool
    ensures { result ≡ as_variables.is_led_by_type lead }
{
    matches!(lead, Lead::Type)
}

// Whether a name is declared behind its type.
fn is_first(reading: DeclarationReading, kind: Kind) -> bool
    ensures { result ≡ as_variables.is_first reading kind }
{
    reading.declares(kind) && is_led_by_type(reading.lead)
}

// The type of a name that is declared before these stretches.
fn type_of<'t>(reading: DeclarationReading, word: &'t [u8], back: &[Stretch<'_>]) -> &'t [u8]
    ensures { result.now ≡ as_variables.type_of reading word.now back.now }
{
    if reading.is_header || begins_with(Kind::OpenBracket, back) {
        return b"";
    }
    word
}

/// The names that a text declares.
pub fn variables<'t>(
    alloc: Global,
    stretches: &[Stretch<'t>],
) -> Result<Vec<DeclaredName<'t>>, AllocError>
    ensures { IfOk result (λ v. v.items ≡ as_variables.variables stretches.now) }
{
    let mut out = Vec::new(alloc);
    let mut reading = DeclarationReading::start();
    let mut last: &'t [u8] = b"";
    let mut word: &'t [u8] = b"";
    let mut rest = stretches;
    while let [stretch, back @ ..] = rest {
        let kind = stretch.kind();
        let token = stretch.token();
        word = either(is_first(reading, kind), last, word);
        if reading.declares(kind) {
            out.push(DeclaredName {
                name: token,
                word: type_of(reading, word, back),
            })?;
        }
        reading = reading.behind(kind, token);
        last = token;
        rest = back;
    }
    Ok(out)
}

// Whether all of these that have the name are of the type.
fn agree(variables: &[DeclaredName<'_>], name: &[u8], word: &[u8]) -> bool
    ensures { result ≡ as_variables.agree variables.now name.now word.now }
{
    let mut rest = variables;
    while let [variable, back @ ..] = rest {
        if variable.name() == name && variable.word() != word {
            return false;
        }
        rest = back;
    }
    true
}

fn is_short(name: &[u8]) -> bool
    ensures { result ≡ as_variables.is_short name.now }
{
    name.len() <= MOST_LENGTH
}

// Those that are records, as many as there is room for.
fn declared_records<'t>(
    alloc: Global,
    members: &[Member<'_>],
    variables: &[DeclaredName<'t>],
) -> Result<Vec<DeclaredName<'t>>, AllocError>
    ensures { IfOk result (λ v. v.items ≡ as_variables.declared_records MOST_RECORDS members.now variables.now) }
{
    let mut out = Vec::new(alloc);
    let mut room = MOST_RECORDS;
    let mut rest = variables;
    while let [variable, back @ ..] = rest {
        if room > 0 && (is_short(variable.name()) && is_record(members, variable.word())) {
            room -= 1;
            out.push(DeclaredName {
                name: variable.name(),
                word: variable.word(),
            })?;
        }
        rest = back;
    }
    Ok(out)
}

// Those of them of which all declarations agree.
fn settled<'t>(
    alloc: Global,
    all: &[DeclaredName<'_>],
    found: &[DeclaredName<'t>],
) -> Result<Vec<DeclaredName<'t>>, AllocError>
    ensures { IfOk result (λ v. v.items ≡ as_variables.settled all.now found.now) }
{
    let mut out = Vec::new(alloc);
    let mut rest = found;
    while let [variable, back @ ..] = rest {
        if agree(all, variable.name(), variable.word()) {
            out.push(DeclaredName {
                name: variable.name(),
                word: variable.word(),
            })?;
        }
        rest = back;
    }
    Ok(out)
}

/// The variables that are records, wherever the text declares them.
pub fn records<'t>(
    alloc: Global,
    members: &[Member<'_>],
    stretches: &[Stretch<'t>],
) -> Result<Vec<DeclaredName<'t>>, AllocError>
    ensures { IfOk result (λ v. v.items ≡ as_variables.records members.now stretches.now) }
{
    let all = variables(alloc, stretches)?;
    let found = declared_records(alloc, members, &all)?;
    settled(alloc, &all, &found)
}

/// The typedef of a record; nothing where this is none.
pub fn record_of<'t>(records: &[DeclaredName<'t>], name: &[u8]) -> &'t [u8]
    ensures { result.now ≡ as_variables.record_of records.now name.now }
{
    let mut rest = records;
    while let [variable, back @ ..] = rest {
        if variable.name() == name {
            return variable.word();
        }
        rest = back;
    }
    b""
}
