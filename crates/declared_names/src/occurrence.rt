//! Where a name stands, and where it is declared.

ghost use Rattle.std.specs.Prelude.{◌≡◌, ◌++◌, OnOk};
ghost use Rattle.declared_names.specs.Meant.{at_place};

use pml_token::token::Token;
use std::alloc::AllocError;

/// A name that stands in a text, and its declaration.
#[derive(Clone, Copy, Debug, PartialEq, Eq)]
pub struct Occurrence {
    /// How many bytes stand before it.
    pub at: usize,
    pub length: usize,
    /// How many bytes stand before the name where it is declared.
    pub declared: usize,
}

/// Adds a name, if it is declared.
pub fn add_name(
    out: &mut Vec<Occurrence>,
    name: &Token<'_>,
    declared: Option<usize>,
) -> Result<(), AllocError>
    ensures { OnOk result (out.new.items ≡ out.old.items ++ at_place name.now declared) }
{
    let Some(declared) = declared else {
        return Ok(());
    };
    out.push(Occurrence {
        at: name.line() as usize,
        length: name.text().len(),
        declared,
    })?;
    Ok(())
}
