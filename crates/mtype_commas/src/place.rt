//! Whether a token stands among the names of an `mtype`.

ghost use Rattle.std.specs.Prelude.{◌≡◌};
ghost use Rattle.mtype_commas.specs.Places as places;

use pml_token::token::{Kind, same_kind};

/// What is known before a token.
#[derive(Clone, Copy)]
pub enum MtypePlace {
    Outside,
    /// Behind `mtype`, or behind the name of a subtype of it.
    Typed,
    /// Behind the colon of a subtype.
    Subtyped,
    /// Behind the `=` before the names.
    Assigned,
    /// Among the names; whether the last token is one.
    Within(bool),
}

/// Behind a token outside.
fn behind_other(kind: Kind) -> MtypePlace
    ensures { result ≡ places.behind_other kind }
{
    if same_kind(kind, Kind::Mtype) {
        MtypePlace::Typed
    } else {
        MtypePlace::Outside
    }
}

/// Behind a token that follows a type.
fn behind_type(kind: Kind) -> MtypePlace
    ensures { result ≡ places.behind_type kind }
{
    match kind {
        Kind::Colon => MtypePlace::Subtyped,
        Kind::Assign => MtypePlace::Assigned,
        Kind::OpenBrace => MtypePlace::Within(false),
        _ => behind_other(kind),
    }
}

/// Behind a token among names.
fn behind_within(kind: Kind) -> MtypePlace
    ensures { result ≡ places.behind_within kind }
{
    if same_kind(kind, Kind::CloseBrace) {
        MtypePlace::Outside
    } else {
        MtypePlace::Within(same_kind(kind, Kind::Name))
    }
}

/// What is known behind a token.
pub fn behind(place: MtypePlace, kind: Kind) -> MtypePlace
    ensures { result ≡ places.behind place kind }
{
    match place {
        MtypePlace::Outside => behind_other(kind),
        MtypePlace::Typed => behind_type(kind),
        MtypePlace::Subtyped => {
            if same_kind(kind, Kind::Name) {
                MtypePlace::Typed
            } else {
                behind_other(kind)
            }
        }
        MtypePlace::Assigned => {
            if same_kind(kind, Kind::OpenBrace) {
                MtypePlace::Within(false)
            } else {
                behind_other(kind)
            }
        }
        MtypePlace::Within(_) => behind_within(kind),
    }
}
