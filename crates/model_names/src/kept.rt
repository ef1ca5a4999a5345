//! A text with its names, which are read once.

ghost use Rattle.std.specs.Prelude.{◌≡◌, IfSome};
ghost use Rattle.model_names.specs.Told.{AreMeant};

use crate::names::{TextNames, names_of};
use std::alloc::{AllocError, Global};
use std::marker::Model;

/// A text, and its names once they were read.
#[derive(Drop)]
pub struct KeptNames {
    text: Vec<u8>,
    /// What was read: of a text whose tokens spell no tree it is nothing.
    read: Option<Option<TextNames>>,
}

impl Model for KeptNames {
    ghost use Rattle.std.specs.Prelude.{ℕ, List};
    ghost use Rattle.model_names.specs.Kept.{AreOf};

    ghost Value = { List ℕ };

    ghost view = { λ k. k.text.items };

    ghost invariant = { λ k. AreOf k.text.items k.read };
}

impl KeptNames {
    /// A text whose names were not read yet.
    pub fn new(text: Vec<u8>) -> KeptNames
        ensures { result ≡ text.items }
    {
        KeptNames { text, read: None }
    }

    /// The text.
    pub fn text(&self) -> &[u8]
        ensures { result.now ≡ self.now }
    {
        self.text.as_slice()
    }

    /// The text, without its names.
    pub fn into_text(self) -> Vec<u8>
        ensures { result.items ≡ self }
    {
        let KeptNames { text, .. } = self;
        text
    }

    /// Reads the names, if they were not read yet.
    pub fn read(&mut self, alloc: Global) -> Result<(), AllocError>
        ensures { self.new ≡ self.old }
    {
        if self.read.is_none() {
            self.read = Some(names_of(alloc, &self.text)?);
        }
        Ok(())
    }

    /// The names, if they were read, and the text has some.
    pub fn names(&self) -> Option<&TextNames>
        ensures { IfSome result (λ names. AreMeant self.now names.now.meant.items) }
    {
        match &self.read {
            Some(Some(names)) => Some(names),
            _ => None,
        }
    }
}
