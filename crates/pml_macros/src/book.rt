//! Texts by their numbers: equal texts have one number.

ghost use Rattle.std.specs.Prelude.{◌≡◌, [], IfOk};
ghost use Rattle.std.specs.Bool.{OnTrue};
ghost use Rattle.pml_macros.specs.Texts.{IsText, Keeps, text_in};

use std::alloc::{AllocError, Global};
use std::collections::BTreeMap;

/// All texts of tokens.
#[derive(Drop)]
pub struct Book {
    texts: Vec<Vec<u8>>,
    numbers: BTreeMap<Vec<u8>, usize>,
}

impl Book {
    /// A book without a text.
    pub fn new(alloc: Global) -> Book
        ensures { result.texts.items ≡ [] }
    {
        Book {
            texts: Vec::new(alloc),
            numbers: BTreeMap::new(alloc),
        }
    }

    /// The text with this number, or an empty one.
    pub fn text(&self, number: usize) -> &[u8]
        ensures { result.now ≡ text_in self.now number }
    {
        if number < self.texts.len() {
            self.texts[number].as_slice()
        } else {
            b""
        }
    }

    fn is_text(&self, number: usize, text: &[u8]) -> bool
        ensures { OnTrue result (IsText self.now number text.now) }
    {
        number < self.texts.len() && is_same(self.text(number), text)
    }

    /// The number of a text.
    pub fn number(&mut self, alloc: Global, text: &[u8]) -> Result<usize, AllocError>
        ensures is { IfOk result (λ n. IsText self.new n text.now) }
        ensures keeps { IfOk result (λ _. Keeps self.old self.new) }
    {
        let found = self.numbers.get(text).copied();
        if let Some(number) = found {
            if self.is_text(number, text) {
                return Ok(number);
            }
        }
        let number = self.texts.len();
        let kept = owned(alloc, text)?;
        let key = owned(alloc, text)?;
        self.texts.push(kept)?;
        self.numbers.insert(key, number)?;
        Ok(number)
    }
}

fn is_same(a: &[u8], b: &[u8]) -> bool
    ensures { OnTrue result (a.now ≡ b.now) }
{
    a == b
}

/// A text of its own.
pub fn owned(alloc: Global, text: &[u8]) -> Result<Vec<u8>, AllocError>
    ensures { IfOk result (λ v. v.items ≡ text.now) }
{
    let mut bytes = Vec::with_capacity(alloc, text.len())?;
    bytes.extend_from_slice(text)?;
    Ok(bytes)
}
