//! In which unit of a model a place stands, by the tokens before it.

ghost use Rattle.std.specs.Prelude.{◌≡◌, ◌<◌, ◌≤◌, ◌+◌, ◌^◌, None};
ghost use Rattle.offered_names.specs.Standing.{begins_unit, passed, stands, nowhere};

use pml_token::token::{Kind, Token, same_kind};

/// Where a place stands.
#[derive(Clone, Copy, Debug, PartialEq, Eq)]
pub struct PlaceStanding {
    /// How many bytes stand before the word that begins the unit around the place, if it is in one.
    pub head: Option<usize>,
    /// Whether that unit is an inline.
    pub is_inline: bool,
    /// How many braces are open.
    pub depth: usize,
}

/// Whether a unit with names of its own begins with this word.
fn begins_unit(kind: Kind) -> bool
    ensures { result ≡ begins_unit kind }
{
    same_kind(kind, Kind::Proctype)
        || same_kind(kind, Kind::Init)
        || same_kind(kind, Kind::Inline)
        || same_kind(kind, Kind::Typedef)
}

/// Where a place stands behind one more token.
fn passed(standing: PlaceStanding, token: &Token<'_>) -> PlaceStanding
    requires { standing.depth + 1 < 2 ^ 64 }
    ensures is { result ≡ passed standing token.now }
    ensures few { result.depth ≤ standing.depth + 1 }
{
    let depth = standing.depth;
    if same_kind(token.kind(), Kind::OpenBrace) {
        PlaceStanding {
            depth: depth + 1,
            ..standing
        }
    } else if same_kind(token.kind(), Kind::CloseBrace) {
        PlaceStanding {
            head: if 1 < depth { standing.head } else { None },
            is_inline: standing.is_inline,
            depth: depth.saturating_sub(1),
        }
    } else if depth == 0 && begins_unit(token.kind()) {
        PlaceStanding {
            head: Some(token.line() as usize),
            is_inline: same_kind(token.kind(), Kind::Inline),
            depth,
        }
    } else {
        standing
    }
}

/// Where a place stands behind these tokens, which begin the text.
pub fn stands(tokens: &[Token<'_>]) -> PlaceStanding
    ensures { result ≡ stands nowhere tokens.now }
{
    let mut standing = PlaceStanding {
        head: None,
        is_inline: false,
        depth: 0,
    };
    for (i, token) in tokens.iter().enumerate() {
        let _read = i;
        standing = passed(standing, token);
    }
    standing
}
