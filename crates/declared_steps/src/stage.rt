//! What is known before a token of the declaration that it stands in.

ghost use Rattle.std.specs.Prelude.{◌≡◌};
ghost use Rattle.declared_steps.specs.Stages as stages;

use pml_token::token::{Kind, same_kind};
use prepare::context::deeper;
use prepare::sizes::{DeclarationReading, Lead};
use prepare::stretch::Stretch;

/// What is still to be written of the name that was declared last.
#[derive(Clone, Copy)]
pub enum PendingStep {
    /// Nothing: it is no step.
    Nothing,
    /// Its value, and 0 if it has none; whether it is an array, and whether it is a channel, which is left without one.
    Named(bool, bool),
    /// It has its value.
    Valued,
}

/// What is known before a token.
#[derive(Clone, Copy)]
pub struct DeclarationStage {
    /// What is known of declarations.
    pub reading: DeclarationReading,
    /// The last token.
    pub last: Kind,
    /// The type of the declaration.
    pub type_word: Kind,
    /// How many braces are open.
    pub braces: u32,
    /// Whether this is an inline.
    pub is_inline: bool,
    /// Whether a statement stands before in this body.
    pub is_behind: bool,
    /// Whether this is a claim on channels, by `xr` or `xs`, and no statement.
    pub is_claim: bool,
    pub item: PendingStep,
}

fn is_type(kind: Kind) -> bool
    ensures { result ≡ stages.is_type kind }
{
    matches!(
        kind,
        Kind::Bit
            | Kind::Bool
            | Kind::Byte
            | Kind::Int
            | Kind::Mtype
            | Kind::Pid
            | Kind::Short
            | Kind::Unsigned
    )
}

fn is_modifier(kind: Kind) -> bool
    ensures { result ≡ stages.is_modifier kind }
{
    matches!(
        kind,
        Kind::Chan | Kind::Hidden | Kind::Local | Kind::Show | Kind::Xr | Kind::Xs
    )
}

// Whether a word begins a claim on channels.
fn is_claim_word(kind: Kind) -> bool
    ensures { result ≡ stages.is_claim_word kind }
{
    matches!(kind, Kind::Xr | Kind::Xs)
}

/// Whether a token ends a declaration.
pub fn ends(kind: Kind) -> bool
    ensures { result ≡ stages.ends kind }
{
    matches!(
        kind,
        Kind::Semicolon
            | Kind::Arrow
            | Kind::DoubleColon
            | Kind::CloseBrace
            | Kind::Fi
            | Kind::Od
            | Kind::Unless
            | Kind::End
    )
}

fn begins_with(kind: Kind, stretches: &[Stretch<'_>]) -> bool
    ensures { result ≡ stages.begins_with kind stretches.now }
{
    match stretches {
        [stretch, ..] => same_kind(stretch.kind(), kind),
        _ => false,
    }
}

fn is_led_by_type(lead: Lead) -> bool
    ensures { result ≡ stages.is_led_by_type lead }
{
    matches!(lead, Lead::Type)
}

fn braces_behind(braces: u32, kind: Kind) -> u32
    ensures { result ≡ stages.braces_behind braces kind }
{
    match kind {
        Kind::OpenBrace => deeper(braces),
        Kind::CloseBrace => braces.saturating_sub(1),
        _ => braces,
    }
}

// What is to be written of a name of this type.
fn item_of(type_word: Kind) -> PendingStep
    ensures { result ≡ stages.item_of type_word }
{
    if is_type(type_word) {
        PendingStep::Named(false, false)
    } else if same_kind(type_word, Kind::Chan) {
        PendingStep::Named(false, true)
    } else {
        PendingStep::Nothing
    }
}

// What is to be written of a name behind `=`: a channel that is made there is no step.
fn item_with_value(is_channel: bool, back: &[Stretch<'_>]) -> PendingStep
    ensures { result ≡ stages.item_with_value is_channel back.now }
{
    if is_channel && begins_with(Kind::OpenBracket, back) {
        PendingStep::Nothing
    } else {
        PendingStep::Valued
    }
}

/// What is to be written of a name behind a token that stands in no brackets of the declaration.
pub fn item_behind(item: PendingStep, kind: Kind, back: &[Stretch<'_>]) -> PendingStep
    ensures { result ≡ stages.item_behind item kind back.now }
{
    if same_kind(kind, Kind::Comma) || ends(kind) {
        return PendingStep::Nothing;
    }
    match item {
        PendingStep::Named(is_array, is_channel) => {
            if same_kind(kind, Kind::Assign) {
                item_with_value(is_channel, back)
            } else {
                PendingStep::Named(is_array || same_kind(kind, Kind::OpenBracket), is_channel)
            }
        }
        _ => item,
    }
}

impl DeclarationStage {
    /// The beginning of a text.
    pub fn start() -> DeclarationStage
        ensures { result ≡ stages.start }
    {
        DeclarationStage {
            reading: DeclarationReading::start(),
            last: Kind::End,
            type_word: Kind::End,
            braces: 0,
            is_inline: false,
            is_behind: false,
            is_claim: false,
            item: PendingStep::Nothing,
        }
    }

    /// Whether a token is a name that is declared behind its type.
    pub fn is_first(self, kind: Kind) -> bool
        ensures { result ≡ stages.is_first self kind }
    {
        self.reading.declares(kind) && is_led_by_type(self.reading.lead)
    }

    // Whether a declaration is a step here: not at the beginning of a body that is no inline's.
    fn is_step(self) -> bool
        ensures { result ≡ stages.is_step self }
    {
        self.braces > 1 || (self.braces > 0 && (self.is_inline || self.is_behind))
    }

    // Whether a token stands in a claim on channels, from its word on.
    fn claims(self, kind: Kind) -> bool
        ensures { result ≡ stages.claims self kind }
    {
        is_claim_word(kind) || (self.is_claim && !ends(kind))
    }

    // Whether a token stands in a declaration, or between declarations.
    fn is_quiet(self, kind: Kind, back: &[Stretch<'_>]) -> bool
        ensures { result ≡ stages.is_quiet self kind back.now }
    {
        let is_word = is_type(kind) || is_modifier(kind);
        let is_user = same_kind(kind, Kind::Name) && begins_with(Kind::Name, back);
        let is_between = same_kind(kind, Kind::Semicolon) || same_kind(kind, Kind::Arrow);
        let is_declared = self.reading.goes_on || self.reading.declares(kind);
        (is_word || is_user) || (is_between || (is_declared || self.claims(kind)))
    }

    fn ends_body(self, kind: Kind) -> bool
        ensures { result ≡ stages.ends_body self kind }
    {
        same_kind(kind, Kind::CloseBrace) && self.braces < 2
    }

    fn type_behind(self, kind: Kind) -> Kind
        ensures { result ≡ stages.type_behind self kind }
    {
        if self.is_first(kind) {
            self.last
        } else {
            self.type_word
        }
    }

    fn next_item(self, kind: Kind, back: &[Stretch<'_>]) -> PendingStep
        ensures { result ≡ stages.next_item self kind back.now }
    {
        if self.reading.declares(kind) {
            return if self.is_step() {
                item_of(self.type_behind(kind))
            } else {
                PendingStep::Nothing
            };
        }
        if self.reading.depth == 0 {
            item_behind(self.item, kind, back)
        } else {
            self.item
        }
    }

    /// What is known behind a token, before these stretches.
    pub fn behind(self, kind: Kind, token: &[u8], back: &[Stretch<'_>]) -> DeclarationStage
        ensures { result ≡ stages.behind self kind token.now back.now }
    {
        let ends_body = self.ends_body(kind);
        DeclarationStage {
            reading: self.reading.behind(kind, token),
            last: kind,
            type_word: self.type_behind(kind),
            braces: braces_behind(self.braces, kind),
            is_inline: same_kind(kind, Kind::Inline) || (self.is_inline && !ends_body),
            is_behind: !ends_body
                && (self.is_behind || (self.braces > 0 && !self.is_quiet(kind, back))),
            is_claim: self.claims(kind),
            item: self.next_item(kind, back),
        }
    }
}
