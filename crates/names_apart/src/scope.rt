//! What is known of one name before a token: which of its declarations is in force.

ghost use Rattle.std.specs.Prelude.{◌≡◌};
ghost use Rattle.names_apart.specs.Scopes as scopes;

use pml_token::token::{Kind, same_kind};
use prepare::context::deeper;
use prepare::sizes::DeclarationReading;

/// How many declarations of a name are counted in a body. What is more counts as so many.
pub const MOST_NUMBER: u32 = 1_000;

/// Which declaration of the name is in force.
#[derive(Clone, Copy)]
pub struct Force {
    /// How often the name was declared in this body so far.
    pub number: u32,
    /// How many braces are open where the declaration in force stands; 0 where none is.
    pub level: u32,
}

/// Whether a token stands in the call of an inline that declares the name, or in the header of one.
#[derive(Clone, Copy)]
pub struct InlineCall {
    /// How often an inline declares the name whose own name was the last token.
    pub ahead: u32,
    /// How often the inline declares it whose call this is; 0 for none.
    pub within: u32,
    /// How many parentheses were open before that call.
    pub outer: u32,
    /// Whether the last token was `(`.
    pub is_bare: bool,
}

/// What is known of one name before a token.
#[derive(Clone, Copy)]
pub struct NameScope {
    /// What is known of declarations.
    pub reading: DeclarationReading,
    /// Whether the last token was a dot, behind which a field stands.
    pub is_field: bool,
    /// How many braces are open.
    pub braces: u32,
    /// How many parentheses are open.
    pub parens: u32,
    /// Whether this is an inline.
    pub is_inline: bool,
    /// Whether the name is one of its parameters.
    pub is_parameter: bool,
    pub force: Force,
    pub call: InlineCall,
}

/// So many declarations more.
pub fn more(number: u32, count: u32) -> u32
    ensures { result ≡ scopes.more number count }
{
    number.saturating_add(count).min(MOST_NUMBER)
}

/// Whether a token is the name.
pub fn is_name(name: &[u8], kind: Kind, token: &[u8]) -> bool
    ensures { result ≡ scopes.is_name name.now kind token.now }
{
    same_kind(kind, Kind::Name) && token == name
}

impl Force {
    /// Behind a declaration, where so many braces are open. Within the block of another one it declares nothing new.
    pub fn declared(self, braces: u32) -> Force
        ensures { result ≡ scopes.declared self braces }
    {
        if self.level > 0 {
            return self;
        }
        Force {
            number: more(self.number, 1),
            level: braces.max(1),
        }
    }

    /// Behind a call of an inline that declares the name so often.
    pub fn called(self, count: u32) -> Force
        ensures { result ≡ scopes.called self count }
    {
        if self.level > 0 {
            return self;
        }
        Force {
            number: more(self.number, count),
            level: 0,
        }
    }

    /// Behind a `}` before which so many braces are open.
    pub fn closed(self, braces: u32) -> Force
        ensures { result ≡ scopes.closed self braces }
    {
        if braces < 2 {
            return Force {
                number: 0,
                level: 0,
            };
        }
        if self.level < braces {
            return self;
        }
        Force {
            number: self.number,
            level: 0,
        }
    }
}

pub(crate) fn braces_behind(braces: u32, kind: Kind) -> u32
    ensures { result ≡ scopes.braces_behind braces kind }
{
    match kind {
        Kind::OpenBrace => deeper(braces),
        Kind::CloseBrace => braces.saturating_sub(1),
        _ => braces,
    }
}

pub(crate) fn parens_behind(parens: u32, kind: Kind) -> u32
    ensures { result ≡ scopes.parens_behind parens kind }
{
    match kind {
        Kind::OpenParen => deeper(parens),
        Kind::CloseParen => parens.saturating_sub(1),
        _ => parens,
    }
}

impl InlineCall {
    /// Behind `(`, before which so many parentheses are open.
    fn entered(self, parens: u32) -> InlineCall
        ensures { result ≡ scopes.entered self parens }
    {
        if self.within > 0 {
            return InlineCall {
                ahead: 0,
                is_bare: true,
                ..self
            };
        }
        InlineCall {
            ahead: 0,
            within: self.ahead,
            outer: parens,
            is_bare: true,
        }
    }

    /// Whether a `)` before which so many parentheses are open ends the call.
    pub fn ends(self, parens: u32) -> bool
        ensures { result ≡ scopes.ends self parens }
    {
        self.within > 0 && parens.saturating_sub(1) <= self.outer
    }

    /// Behind `)`.
    fn left(self, parens: u32) -> InlineCall
        ensures { result ≡ scopes.left self parens }
    {
        InlineCall {
            ahead: 0,
            within: if self.ends(parens) { 0 } else { self.within },
            outer: self.outer,
            is_bare: false,
        }
    }

    /// Behind a token, which is the name of an inline that declares the name so often.
    pub(crate) fn behind(self, parens: u32, count: u32, kind: Kind) -> InlineCall
        ensures { result ≡ scopes.call_behind self parens count kind }
    {
        match kind {
            Kind::OpenParen => self.entered(parens),
            Kind::CloseParen => self.left(parens),
            _ => InlineCall {
                ahead: count,
                within: self.within,
                outer: self.outer,
                is_bare: false,
            },
        }
    }
}

impl NameScope {
    /// The beginning of a text.
    pub fn start() -> NameScope
        ensures { result ≡ scopes.start }
    {
        NameScope {
            reading: DeclarationReading::start(),
            is_field: false,
            braces: 0,
            parens: 0,
            is_inline: false,
            is_parameter: false,
            force: Force {
                number: 0,
                level: 0,
            },
            call: InlineCall {
                ahead: 0,
                within: 0,
                outer: 0,
                is_bare: false,
            },
        }
    }

    /// Whether a token declares the name.
    pub fn declares(self, name: &[u8], kind: Kind, token: &[u8]) -> bool
        ensures { result ≡ scopes.declares self name.now kind token.now }
    {
        is_name(name, kind, token) && self.reading.declares(kind)
    }

    /// Whether this is the header of an inline.
    pub fn is_header(self) -> bool
        ensures { result ≡ scopes.is_header self }
    {
        self.is_inline && self.braces == 0
    }

    /// Whether a token ends the call of an inline that declares the name, or the header of one.
    pub fn ends_call(self, kind: Kind) -> bool
        ensures { result ≡ scopes.ends_call self kind }
    {
        same_kind(kind, Kind::CloseParen) && self.call.ends(self.parens)
    }

    /// Which declaration is in force behind a token.
    pub fn force_behind(self, name: &[u8], kind: Kind, token: &[u8]) -> Force
        ensures { result ≡ scopes.force_behind self name.now kind token.now }
    {
        if self.declares(name, kind, token) {
            return if self.is_header() {
                self.force
            } else {
                self.force.declared(self.braces)
            };
        }
        if same_kind(kind, Kind::CloseBrace) {
            return self.force.closed(self.braces);
        }
        if self.ends_call(kind) && self.braces > 0 {
            return self.force.called(self.call.within);
        }
        self.force
    }

    /// Whether a token ends a body.
    pub fn ends_body(self, kind: Kind) -> bool
        ensures { result ≡ scopes.ends_body self kind }
    {
        same_kind(kind, Kind::CloseBrace) && self.braces < 2
    }

    /// What is known behind a token, which is the name of an inline that declares the name so often.
    pub fn behind(self, name: &[u8], count: u32, kind: Kind, token: &[u8]) -> NameScope
        ensures { result ≡ scopes.behind self name.now count kind token.now }
    {
        NameScope {
            reading: self.reading.behind(kind, token),
            is_field: same_kind(kind, Kind::Dot),
            braces: braces_behind(self.braces, kind),
            parens: parens_behind(self.parens, kind),
            is_inline: same_kind(kind, Kind::Inline) || (self.is_inline && !self.ends_body(kind)),
            is_parameter: (self.is_header() && self.declares(name, kind, token))
                || (self.is_parameter && !self.ends_body(kind)),
            force: self.force_behind(name, kind, token),
            call: self.call.behind(self.parens, count, kind),
        }
    }
}
