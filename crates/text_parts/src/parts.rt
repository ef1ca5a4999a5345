//! Parts of a text by how far each lies behind the one before.

ghost use Rattle.std.specs.Prelude.{◌≡◌, ◌++◌, take, drop, IfOk, OnOk};
ghost use Rattle.text_parts.specs.Coded.{five, coded};

use crate::going::gone;
use crate::places::{ColumnUnit, units};
use source_lines::position::between;
use std::alloc::{AllocError, Global};

/// A part of a text that is coloured.
#[derive(Clone, Copy, Debug, PartialEq, Eq)]
pub struct Coloured {
    /// How many bytes stand before it.
    pub at: usize,
    pub length: usize,
    /// The number of what it is, among those that the editor is told.
    pub sort: usize,
}

/// So many bytes of a text behind so many others.
fn bytes_at(text: &[u8], at: usize, length: usize) -> &[u8]
    ensures { result.now ≡ take length (drop at text.now) }
{
    let rest = if at < text.len() {
        &text[at..]
    } else {
        &text[..0]
    };
    if length < rest.len() {
        &rest[..length]
    } else {
        rest
    }
}

/// Adds the numbers of a part, behind a place.
fn add_part(
    out: &mut Vec<usize>,
    unit: ColumnUnit,
    text: &[u8],
    behind: usize,
    part: Coloured,
) -> Result<(), AllocError>
    ensures { OnOk result (out.new.items ≡ out.old.items ++ five unit text.now behind part) }
{
    let way = gone(unit, between(text, behind, part.at));
    let width = units(unit, bytes_at(text, part.at, part.length));
    out.push(way.line)?;
    out.push(way.column)?;
    out.push(width)?;
    out.push(part.sort)?;
    out.push(0)?;
    Ok(())
}

/// The numbers of parts, which are in the order of the text: of each how many lines it stands below the one before, how many units behind its place or,
/// below it, behind the line's start; how many units it has, what it is, and that no more is said of it.
pub fn coded(
    alloc: Global,
    unit: ColumnUnit,
    text: &[u8],
    parts: &[Coloured],
) -> Result<Vec<usize>, AllocError>
    ensures { IfOk result (λ ns. ns.items ≡ coded unit text.now 0 parts.now) }
{
    let mut out = Vec::new(alloc);
    let mut behind = 0usize;
    for part in parts {
        add_part(&mut out, unit, text, behind, *part)?;
        behind = part.at;
    }
    Ok(out)
}
