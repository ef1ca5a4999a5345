//! What becomes of each token where records are messages.

ghost use Rattle.std.specs.Prelude.{◌≡◌, IfOk};
ghost use Rattle.record_messages.specs.Changes as changes;

use crate::members::{Member, either, is_record};
use crate::place::{MessagePlace, behind};
use crate::variables::{DeclaredName, begins_with, record_of};
use pml_token::token::{Kind, same_kind};
use prepare::stretch::Stretch;
use std::alloc::{AllocError, Global};
use std::marker::Model;

/// At most so many loops over messages are made; the others stay.
pub const MOST_LOOPS: u32 = 1000;

/// What becomes of a token.
#[derive(Clone, Copy)]
pub enum MessageChange {
    /// It stays.
    Kept,
    /// The types of the fields stand for it, which is the name of a typedef.
    Types,
    /// The fields stand for it, which is a record.
    Fields,
    /// The declaration of a counter stands before it, which is the `for` of a loop over messages.
    Declared,
    /// The counter stands for it, which is the variable of the loop.
    Counter,
    /// `: 0 .. len(` stands for it, which is the `in` of the loop.
    Range,
    /// `) - 1` stands before it, which ends the head of the loop.
    Ended,
    /// Behind it, which begins the body of the loop, the oldest message is received and sent again.
    Turned,
}

/// A token, with what becomes of it.
#[derive(Drop)]
pub struct MessageToken<'t> {
    gap: &'t [u8],
    token: &'t [u8],
    kind: Kind,
    change: MessageChange,
    number: u32,
    name: &'t [u8],
    channel: &'t [u8],
    index: &'t [u8],
}

impl<'t> Model for MessageToken<'t> {
    ghost use Rattle.record_messages.specs.MessageToken.{MessageToken as Seen};

    ghost Value = { Seen };

    ghost view = { λ c. record {
      gap = c.gap.now;
      token = c.token.now;
      kind = c.kind;
      change = c.change;
      loop = record { number = c.number; name = c.name.now; channel = c.channel.now; index = c.index.now };
    } };
}

impl<'t> MessageToken<'t> {
    /// The blanks and comments before the token.
    pub fn gap(&self) -> &'t [u8]
        ensures { result.now ≡ self.now.gap }
    {
        self.gap
    }

    /// The token.
    pub fn token(&self) -> &'t [u8]
        ensures { result.now ≡ self.now.token }
    {
        self.token
    }

    /// What becomes of it.
    pub fn change(&self) -> MessageChange
        ensures { result ≡ self.now.change }
    {
        self.change
    }

    /// The number of the last loop over messages.
    pub fn number(&self) -> u32
        ensures { result ≡ self.now.loop.number }
    {
        self.number
    }

    /// Its variable.
    pub fn name(&self) -> &'t [u8]
        ensures { result.now ≡ self.now.loop.name }
    {
        self.name
    }

    /// Its channel, without an index.
    pub fn channel(&self) -> &'t [u8]
        ensures { result.now ≡ self.now.loop.channel }
    {
        self.channel
    }

    /// The index of that; nothing where it has none.
    pub fn index(&self) -> &'t [u8]
        ensures { result.now ≡ self.now.loop.index }
    {
        self.index
    }
}

/// Whether a token is the `in` of a `for`.
fn is_in(stretch: &Stretch<'_>) -> bool
    ensures { result ≡ changes.is_in stretch.now }
{
    same_kind(stretch.kind(), Kind::Name) && stretch.token() == b"in".as_slice()
}

/// Whether a body begins behind `)`.
fn closes(stretches: &[Stretch<'_>]) -> bool
    ensures { result ≡ changes.closes stretches.now }
{
    match stretches {
        [end, body, ..] => {
            same_kind(end.kind(), Kind::CloseParen) && same_kind(body.kind(), Kind::OpenBrace)
        }
        _ => false,
    }
}

fn is_index(kind: Kind) -> bool
    ensures { result ≡ changes.is_index kind }
{
    same_kind(kind, Kind::Number) || same_kind(kind, Kind::Name)
}

/// Whether an index stands before that, which is a name or a number.
fn is_indexed(stretches: &[Stretch<'_>]) -> bool
    ensures { result ≡ changes.is_indexed stretches.now }
{
    match stretches {
        [opening, index, closing, back @ ..] => {
            (same_kind(opening.kind(), Kind::OpenBracket) && is_index(index.kind()))
                && (same_kind(closing.kind(), Kind::CloseBracket) && closes(back))
        }
        _ => false,
    }
}

/// Whether the head of a loop ends here, behind its channel.
fn ends_head(stretches: &[Stretch<'_>]) -> bool
    ensures { result ≡ changes.ends_head stretches.now }
{
    closes(stretches) || is_indexed(stretches)
}

/// Whether these are `(` and a record.
fn begins_head(records: &[DeclaredName<'_>], opening: &Stretch<'_>, variable: &Stretch<'_>) -> bool
    ensures { result ≡ changes.begins_head records.now opening.now variable.now }
{
    same_kind(opening.kind(), Kind::OpenParen)
        && (same_kind(variable.kind(), Kind::Name)
            && !record_of(records, variable.token()).is_empty())
}

/// Whether these are `in` and a channel.
fn goes_over(word: &Stretch<'_>, channel: &Stretch<'_>) -> bool
    ensures { result ≡ changes.goes_over word.now channel.now }
{
    is_in(word) && same_kind(channel.kind(), Kind::Name)
}

/// Whether `(`, a record, `in`, a channel and a body stand at the front of stretches.
fn opens_loop(records: &[DeclaredName<'_>], stretches: &[Stretch<'_>]) -> bool
    ensures { result ≡ changes.opens_loop records.now stretches.now }
{
    match stretches {
        [opening, variable, word, channel, back @ ..] => {
            begins_head(records, opening, variable) && (goes_over(word, channel) && ends_head(back))
        }
        _ => false,
    }
}

/// Whether a token begins a loop over messages, where so many are made before it: behind a label none is.
fn is_loop(
    records: &[DeclaredName<'_>],
    number: u32,
    last: Kind,
    kind: Kind,
    back: &[Stretch<'_>],
) -> bool
    ensures { result ≡ changes.is_loop records.now number last kind back.now }
{
    (same_kind(kind, Kind::For) && !same_kind(last, Kind::Colon))
        && (number < MOST_LOOPS && opens_loop(records, back))
}

/// Whether a name stands alone: it is no field, and nothing of it is selected.
fn is_alone(last: Kind, back: &[Stretch<'_>]) -> bool
    ensures { result ≡ changes.is_alone last back.now }
{
    !same_kind(last, Kind::Dot)
        && (!begins_with(Kind::Dot, back) && !begins_with(Kind::OpenBracket, back))
}

fn change_of_sent(
    records: &[DeclaredName<'_>],
    last: Kind,
    stretch: &Stretch<'_>,
    back: &[Stretch<'_>],
) -> MessageChange
    ensures { result ≡ changes.change_of_sent records.now last stretch.now back.now }
{
    if same_kind(stretch.kind(), Kind::Name)
        && (is_alone(last, back) && !record_of(records, stretch.token()).is_empty())
    {
        MessageChange::Fields
    } else {
        MessageChange::Kept
    }
}

fn change_of_type(members: &[Member<'_>], stretch: &Stretch<'_>) -> MessageChange
    ensures { result ≡ changes.change_of_type members.now stretch.now }
{
    if same_kind(stretch.kind(), Kind::Name) && is_record(members, stretch.token()) {
        MessageChange::Types
    } else {
        MessageChange::Kept
    }
}

fn change_of_channel(kind: Kind) -> MessageChange
    ensures { result ≡ changes.change_of_channel kind }
{
    if same_kind(kind, Kind::CloseParen) {
        MessageChange::Ended
    } else {
        MessageChange::Kept
    }
}

/// What becomes of a token that begins no loop over messages.
fn change_at(
    members: &[Member<'_>],
    records: &[DeclaredName<'_>],
    place: MessagePlace,
    last: Kind,
    stretch: &Stretch<'_>,
    back: &[Stretch<'_>],
) -> MessageChange
    ensures { result ≡ changes.change_at members.now records.now place last stretch.now back.now }
{
    match place {
        MessagePlace::Sent(_) => change_of_sent(records, last, stretch, back),
        MessagePlace::Types => change_of_type(members, stretch),
        MessagePlace::Counted => MessageChange::Counter,
        MessagePlace::Ranged => MessageChange::Range,
        MessagePlace::Over => change_of_channel(stretch.kind()),
        MessagePlace::Entered => MessageChange::Turned,
        MessagePlace::Outside | MessagePlace::Listed | MessagePlace::Headed => MessageChange::Kept,
    }
}

fn change_or_loop(is_loop: bool, change: MessageChange) -> MessageChange
    ensures { result ≡ changes.change_or_loop is_loop change }
{
    if is_loop {
        MessageChange::Declared
    } else {
        change
    }
}

fn count(is_loop: bool, number: u32) -> u32
    ensures { result ≡ changes.count is_loop number }
{
    if is_loop {
        number.saturating_add(1).min(MOST_LOOPS)
    } else {
        number
    }
}

// The variable of a loop that these stretches go on with.
fn variable_at<'t>(stretches: &[Stretch<'t>]) -> &'t [u8]
    ensures { result.now ≡ changes.variable_at stretches.now }
{
    match stretches {
        [_, variable, ..] => variable.token(),
        _ => b"",
    }
}

fn channel_at<'t>(stretches: &[Stretch<'t>]) -> &'t [u8]
    ensures { result.now ≡ changes.channel_at stretches.now }
{
    match stretches {
        [_, _, _, channel, ..] => channel.token(),
        _ => b"",
    }
}

fn index_at<'t>(stretches: &[Stretch<'t>]) -> &'t [u8]
    ensures { result.now ≡ changes.index_at stretches.now }
{
    match stretches {
        [_, _, _, _, opening, index, ..] => {
            if same_kind(opening.kind(), Kind::OpenBracket) {
                index.token()
            } else {
                b""
            }
        }
        _ => b"",
    }
}

/// What becomes of the tokens of a text, where so many loops over messages are made before.
pub fn changes<'t>(
    alloc: Global,
    members: &[Member<'_>],
    records: &[DeclaredName<'_>],
    first: u32,
    stretches: &[Stretch<'t>],
) -> Result<Vec<MessageToken<'t>>, AllocError>
    ensures { IfOk result (λ v. v.items ≡ changes.changes members.now records.now first stretches.now) }
{
    let mut out = Vec::new(alloc);
    let mut place = MessagePlace::Outside;
    let mut last = Kind::End;
    let mut number = first;
    let mut name: &'t [u8] = b"";
    let mut channel: &'t [u8] = b"";
    let mut index: &'t [u8] = b"";
    let mut rest = stretches;
    while let [stretch, back @ ..] = rest {
        let kind = stretch.kind();
        let begins = is_loop(records, number, last, kind, back);
        let change = change_at(members, records, place, last, stretch, back);
        number = count(begins, number);
        name = either(begins, variable_at(back), name);
        channel = either(begins, channel_at(back), channel);
        index = either(begins, index_at(back), index);
        out.push(MessageToken {
            gap: stretch.gap(),
            token: stretch.token(),
            kind,
            change: change_or_loop(begins, change),
            number,
            name,
            channel,
            index,
        })?;
        place = behind(place, begins, kind);
        last = kind;
        rest = back;
    }
    Ok(out)
}
