//! What may stand behind tokens.

ghost use Rattle.std.specs.Prelude.{◌≡◌};
ghost use Rattle.offered_names.specs.Asked.{asked_after, asked_behind};

use pml_token::token::{Kind, Token};

/// What may stand at a place.
#[derive(Clone, Copy, Debug, PartialEq, Eq)]
pub enum Fitting {
    /// Any name of a variable, an mtype name or an inline, or a word.
    Any,
    /// A proctype, behind `run`.
    Proctype,
    /// A label, behind `goto`.
    Label,
    /// A field, behind a dot.
    Field,
    /// What is sent or received: an mtype name, or any other.
    Message,
}

fn asked_after(kind: Kind) -> Fitting
    ensures { result ≡ asked_after kind }
{
    match kind {
        Kind::Run => Fitting::Proctype,
        Kind::Goto => Fitting::Label,
        Kind::Dot => Fitting::Field,
        Kind::Bang | Kind::BangBang | Kind::Query | Kind::QueryQuery => Fitting::Message,
        _ => Fitting::Any,
    }
}

/// What may stand behind these tokens.
pub fn asked_behind(tokens: &[Token<'_>]) -> Fitting
    ensures { result ≡ asked_behind tokens.now }
{
    match tokens {
        [.., token] => asked_after(token.kind()),
        [] => Fitting::Any,
    }
}
