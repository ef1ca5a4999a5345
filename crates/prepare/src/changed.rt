//! A token of a text with what becomes of it, whatever that may be.

ghost use Rattle.std.specs.Prelude.{◌≡◌};
ghost use Rattle.prepare.specs.Changed as changed;

use crate::stretch::Stretch;
use pml_token::token::Kind;
use std::marker::Model;

/// A token, with what becomes of it.
#[derive(Drop)]
pub struct Changed<'t, C> {
    gap: &'t [u8],
    token: &'t [u8],
    kind: Kind,
    change: C,
}

impl<'t, C> Model for Changed<'t, C> {
    ghost use Rattle.prepare.specs.Changed.{Changed as Seen};

    ghost Value = { Seen C };

    ghost view = { λ c. record { gap = c.gap.now; token = c.token.now; kind = c.kind; change = c.change } };
}

impl<'t, C: Copy + Drop> Changed<'t, C> {
    /// The token of a stretch, of which this becomes.
    pub fn new(stretch: &Stretch<'t>, change: C) -> Changed<'t, C>
        ensures { result ≡ changed.changed stretch.now change }
    {
        Changed {
            gap: stretch.gap(),
            token: stretch.token(),
            kind: stretch.kind(),
            change,
        }
    }

    /// The blanks, comments and markers before the token.
    pub fn gap(&self) -> &'t [u8]
        ensures { result.now ≡ self.now.gap }
    {
        self.gap
    }

    /// The token.
    pub fn token(&self) -> &'t [u8]
        ensures { result.now ≡ self.now.token }
    {
        self.token
    }

    /// What the token is.
    pub fn kind(&self) -> Kind
        ensures { result ≡ self.now.kind }
    {
        self.kind
    }

    /// What becomes of it.
    pub fn change(&self) -> C
        ensures { result ≡ self.now.change }
    {
        self.change
    }
}
