//! The fields of typedefs.

ghost use Rattle.std.specs.Prelude.{◌≡◌, IfOk, OnOk, ◌++◌};
ghost use Rattle.record_messages.specs.Members as as_members;

use pml_token::token::{Kind, same_kind};
use prepare::stretch::Stretch;
use std::alloc::{AllocError, Global};
use std::marker::Model;

/// At most so many fields of a text are known; if it has more, none is.
pub const MOST_MEMBERS: usize = 512;

/// A field of a typedef.
#[derive(Drop)]
pub struct Member<'t> {
    home: &'t [u8],
    word: &'t [u8],
    name: &'t [u8],
}

impl<'t> Model for Member<'t> {
    ghost use Rattle.record_messages.specs.Member.{Member as Seen};

    ghost Value = { Seen };

    ghost view = { λ m. record { home = m.home.now; word = m.word.now; name = m.name.now } };
}

impl<'t> Member<'t> {
    /// The name of the typedef.
    pub fn home(&self) -> &'t [u8]
        ensures { result.now ≡ self.now.home }
    {
        self.home
    }

    /// The type of the field.
    pub fn word(&self) -> &'t [u8]
        ensures { result.now ≡ self.now.word }
    {
        self.word
    }

    /// The field; nothing for what is no field of a plain type.
    pub fn name(&self) -> &'t [u8]
        ensures { result.now ≡ self.now.name }
    {
        self.name
    }
}

/// What is known before a token.
#[derive(Clone, Copy)]
pub enum TypedefPlace {
    Outside,
    /// Behind `typedef`.
    Headed,
    /// Behind the name of the typedef.
    Named,
    /// Before the type of a field.
    Ahead,
    /// Before the name of a field.
    Typed,
    /// Behind the name of a field.
    Field,
}

fn is_plain(kind: Kind) -> bool
    ensures { result ≡ as_members.is_plain kind }
{
    matches!(
        kind,
        Kind::Bit
            | Kind::Bool
            | Kind::Byte
            | Kind::Chan
            | Kind::Int
            | Kind::Mtype
            | Kind::Pid
            | Kind::Short
    )
}

fn begun(kind: Kind) -> TypedefPlace
    ensures { result ≡ as_members.begun kind }
{
    if same_kind(kind, Kind::Typedef) {
        TypedefPlace::Headed
    } else {
        TypedefPlace::Outside
    }
}

// Behind a token of this kind, if it is the one that is awaited.
fn if_kind(wanted: Kind, kind: Kind, next: TypedefPlace) -> TypedefPlace
    ensures { result ≡ as_members.if_kind wanted kind next }
{
    if same_kind(kind, wanted) {
        next
    } else {
        begun(kind)
    }
}

fn behind_lead(kind: Kind) -> TypedefPlace
    ensures { result ≡ as_members.behind_lead kind }
{
    if is_plain(kind) {
        TypedefPlace::Typed
    } else {
        if_kind(Kind::Semicolon, kind, TypedefPlace::Ahead)
    }
}

fn behind_field(kind: Kind) -> TypedefPlace
    ensures { result ≡ as_members.behind_field kind }
{
    if same_kind(kind, Kind::Comma) {
        TypedefPlace::Typed
    } else {
        if_kind(Kind::Semicolon, kind, TypedefPlace::Ahead)
    }
}

fn behind(fields: TypedefPlace, kind: Kind) -> TypedefPlace
    ensures { result ≡ as_members.behind fields kind }
{
    match fields {
        TypedefPlace::Outside => begun(kind),
        TypedefPlace::Headed => if_kind(Kind::Name, kind, TypedefPlace::Named),
        TypedefPlace::Named => if_kind(Kind::OpenBrace, kind, TypedefPlace::Ahead),
        TypedefPlace::Ahead => behind_lead(kind),
        TypedefPlace::Typed => if_kind(Kind::Name, kind, TypedefPlace::Field),
        TypedefPlace::Field => behind_field(kind),
    }
}

// Whether a typedef has something here that is no field of a plain type.
fn is_odd(fields: TypedefPlace, kind: Kind) -> bool
    ensures { result ≡ as_members.is_odd fields kind }
{
    let is_end = same_kind(kind, Kind::Semicolon) || same_kind(kind, Kind::CloseBrace);
    match fields {
        TypedefPlace::Ahead => !(is_plain(kind) || is_end),
        TypedefPlace::Typed => !same_kind(kind, Kind::Name),
        TypedefPlace::Field => !(same_kind(kind, Kind::Comma) || is_end),
        _ => false,
    }
}

fn is_field(fields: TypedefPlace, kind: Kind) -> bool
    ensures { result ≡ as_members.is_field fields kind }
{
    matches!(fields, TypedefPlace::Typed) && same_kind(kind, Kind::Name)
}

fn names_home(fields: TypedefPlace, kind: Kind) -> bool
    ensures { result ≡ as_members.names_home fields kind }
{
    matches!(fields, TypedefPlace::Headed) && same_kind(kind, Kind::Name)
}

fn names_type(fields: TypedefPlace, kind: Kind) -> bool
    ensures { result ≡ as_members.names_type fields kind }
{
    matches!(fields, TypedefPlace::Ahead) && is_plain(kind)
}

/// Of two texts the first, where that is asked for.
pub(crate) fn either<'t>(is_first: bool, one: &'t [u8], other: &'t [u8]) -> &'t [u8]
    ensures { result.now ≡ as_members.either is_first one.now other.now }
{
    if is_first { one } else { other }
}

// What a typedef has here.
fn add_member<'t>(
    out: &mut Vec<Member<'t>>,
    fields: TypedefPlace,
    kind: Kind,
    token: &'t [u8],
    home: &'t [u8],
    word: &'t [u8],
) -> Result<(), AllocError>
    ensures { OnOk result (out.new.items ≡ out.old.items ++ as_members.member_at fields kind token.now home.now word.now) }
{
    let nothing: &'t [u8] = b"";
    if is_field(fields, kind) || is_odd(fields, kind) {
        out.push(Member {
            home,
            word,
            name: either(is_field(fields, kind), token, nothing),
        })?;
    }
    Ok(())
}

// What all typedefs of a text have.
fn all_members<'t>(alloc: Global, stretches: &[Stretch<'t>]) -> Result<Vec<Member<'t>>, AllocError>
    ensures { IfOk result (λ v. v.items ≡ as_members.all_members stretches.now) }
{
    let mut out = Vec::new(alloc);
    let mut fields = TypedefPlace::Outside;
    let mut home: &'t [u8] = b"";
    let mut word: &'t [u8] = b"";
    let mut rest = stretches;
    while let [stretch, back @ ..] = rest {
        let kind = stretch.kind();
        let token = stretch.token();
        add_member(&mut out, fields, kind, token, home, word)?;
        home = either(names_home(fields, kind), token, home);
        word = either(names_type(fields, kind), token, word);
        fields = behind(fields, kind);
        rest = back;
    }
    Ok(out)
}

/// The fields of all typedefs of a text, if these are not too many.
pub fn members<'t>(alloc: Global, stretches: &[Stretch<'t>]) -> Result<Vec<Member<'t>>, AllocError>
    ensures { IfOk result (λ v. v.items ≡ as_members.members stretches.now) }
{
    let all = all_members(alloc, stretches)?;
    if all.len() > MOST_MEMBERS {
        return Ok(Vec::new(alloc));
    }
    Ok(all)
}

/// Whether a typedef of this name has fields, all of a plain type.
pub fn is_record(members: &[Member<'_>], name: &[u8]) -> bool
    ensures { result ≡ as_members.is_record members.now name.now }
{
    let mut has_fields = false;
    let mut rest = members;
    while let [member, back @ ..] = rest {
        if member.home() == name {
            if member.name().is_empty() {
                return false;
            }
            has_fields = true;
        }
        rest = back;
    }
    has_fields
}
