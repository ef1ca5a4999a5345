//! What is known of the labels of one name before a token.

ghost use Rattle.std.specs.Prelude.{◌≡◌};
ghost use Rattle.names_apart.specs.Labels as labels;

use crate::scope::{InlineCall, braces_behind, is_name, more, parens_behind};
use pml_token::token::{Kind, same_kind};
use prepare::stretch::Stretch;

/// What is known of the labels of one name before a token.
#[derive(Clone, Copy)]
pub struct Labels {
    /// The last token.
    pub last: Kind,
    /// How many braces are open.
    pub braces: u32,
    /// How many parentheses are open.
    pub parens: u32,
    /// Whether this is an inline.
    pub is_inline: bool,
    /// Whether this body has the label.
    pub has: bool,
    /// Whether a `goto` of this body goes to it.
    pub goes: bool,
    /// How many labels the calls of this body have so far.
    pub count: u32,
    pub call: InlineCall,
}

fn is_between(kind: Kind) -> bool
    ensures { result ≡ labels.is_between kind }
{
    matches!(
        kind,
        Kind::Semicolon
            | Kind::Arrow
            | Kind::DoubleColon
            | Kind::OpenBrace
            | Kind::CloseBrace
            | Kind::Colon
            | Kind::Fi
            | Kind::Od
            | Kind::Else
    )
}

fn begins_with(kind: Kind, stretches: &[Stretch<'_>]) -> bool
    ensures { result ≡ labels.begins_with kind stretches.now }
{
    match stretches {
        [stretch, ..] => same_kind(stretch.kind(), kind),
        _ => false,
    }
}

impl Labels {
    /// The beginning of a text.
    pub fn start() -> Labels
        ensures { result ≡ labels.start }
    {
        Labels {
            last: Kind::End,
            braces: 0,
            parens: 0,
            is_inline: false,
            has: false,
            goes: false,
            count: 0,
            call: InlineCall {
                ahead: 0,
                within: 0,
                outer: 0,
                is_bare: false,
            },
        }
    }

    /// Whether a name is a label, before these stretches.
    pub fn is_label(self, kind: Kind, back: &[Stretch<'_>]) -> bool
        ensures { result ≡ labels.is_label self kind back.now }
    {
        (same_kind(kind, Kind::Name) && begins_with(Kind::Colon, back))
            && (is_between(self.last) && (self.braces > 0 && self.parens == 0))
    }

    /// Whether a token is where a `goto` goes.
    pub fn is_target(self) -> bool
        ensures { result ≡ labels.is_target self }
    {
        same_kind(self.last, Kind::Goto)
    }

    /// Whether this is the header of an inline.
    pub fn is_header(self) -> bool
        ensures { result ≡ labels.is_header self }
    {
        self.is_inline && self.braces == 0
    }

    /// Whether a token ends the call of an inline that has labels, or the header of one.
    pub fn ends_call(self, kind: Kind) -> bool
        ensures { result ≡ labels.ends_call self kind }
    {
        same_kind(kind, Kind::CloseParen) && self.call.ends(self.parens)
    }

    /// Whether a token ends a body.
    pub fn ends_body(self, kind: Kind) -> bool
        ensures { result ≡ labels.ends_body self kind }
    {
        same_kind(kind, Kind::CloseBrace) && self.braces < 2
    }

    fn count_behind(self, kind: Kind) -> u32
        ensures { result ≡ labels.count_behind self kind }
    {
        if self.ends_call(kind) && self.braces > 0 {
            more(self.count, self.call.within)
        } else {
            self.count
        }
    }

    /// What is known behind a token, which is the name of an inline that has so many labels, before these stretches.
    pub fn behind(
        self,
        name: &[u8],
        count: u32,
        kind: Kind,
        token: &[u8],
        back: &[Stretch<'_>],
    ) -> Labels
        ensures { result ≡ labels.behind self name.now count kind token.now back.now }
    {
        let ended = self.ends_body(kind);
        let is = is_name(name, kind, token);
        Labels {
            last: kind,
            braces: braces_behind(self.braces, kind),
            parens: parens_behind(self.parens, kind),
            is_inline: same_kind(kind, Kind::Inline) || (self.is_inline && !ended),
            has: !ended && (self.has || (is && self.is_label(kind, back))),
            goes: !ended && (self.goes || (is && self.is_target())),
            count: if ended { 0 } else { self.count_behind(kind) },
            call: self.call.behind(self.parens, count, kind),
        }
    }

    /// How many labels this body has with all that it calls.
    pub fn total(self) -> u32
        ensures { result ≡ labels.total self }
    {
        if self.has {
            more(self.count, 1)
        } else {
            self.count
        }
    }
}
