//! The flat codes of a body's statements, by their numbers.

ghost use Rattle.std.specs.Prelude.{◌≡◌, ◌++◌, ◌∷◌, [], IfOk, OnOk, slice_get};
ghost use Rattle.std.specs.Option.{option_copied};
ghost use Rattle.flat_code.specs.Wide.{wide_of, with_wide};

use crate::code::FlatCode;
use crate::wide::WideCode;
use std::alloc::{AllocError, Global};
use std::marker::Model;

/// Codes by number, and the wide codes that some of them name.
#[derive(Drop)]
pub struct Codes {
    list: Vec<FlatCode>,
    named: Vec<WideCode>,
}

impl Model for Codes {
    ghost use Rattle.flat_code.specs.Wide.{CodeTable};

    ghost Value = { CodeTable };

    ghost view = { λ t. record { codes = t.list.items; wide = t.named.items } };
}

impl Codes {
    /// No codes, with room for so many.
    pub fn with_capacity(alloc: Global, count: usize) -> Result<Codes, AllocError>
        ensures { IfOk result (λ t. t ≡ record { codes = []; wide = [] }) }
    {
        Ok(Codes {
            list: Vec::with_capacity(alloc, count)?,
            named: Vec::new(alloc),
        })
    }

    /// Adds a code.
    pub fn add(&mut self, code: FlatCode) -> Result<(), AllocError>
        ensures { OnOk result (self.new ≡ record self.old { codes = self.old.codes ++ code ∷ [] }) }
    {
        self.list.push(code)?;
        Ok(())
    }

    /// Adds a wide code, or none where 65,536 are there.
    pub fn add_wide(&mut self, code: WideCode) -> Result<(), AllocError>
        ensures { OnOk result (self.new ≡ with_wide self.old code) }
    {
        let at = self.named.len();
        if at > 65_535 {
            self.list.push(FlatCode::No)?;
            return Ok(());
        }
        self.named.push(code)?;
        self.list.push(FlatCode::Wide(at as u16))?;
        Ok(())
    }

    /// The code with this number.
    #[inline(always)]
    pub fn get(&self, number: usize) -> Option<&FlatCode>
        ensures { option_copied result ≡ slice_get self.now.codes number }
    {
        self.list.get(number)
    }

    /// The wide code with this number, if it has one.
    #[inline(always)]
    pub fn wide(&self, number: usize) -> Option<&WideCode>
        ensures { option_copied result ≡ wide_of self.now number }
    {
        match self.get(number) {
            Some(FlatCode::Wide(at)) => self.named.get(usize::from(*at)),
            _ => None,
        }
    }
}
