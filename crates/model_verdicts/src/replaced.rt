//! A text in which another name stands at some places.

ghost use Rattle.std.specs.Prelude.{◌≡◌, IfOk};
ghost use Rattle.model_verdicts.specs.Replaced.{replaced};

use source_lines::position::between;
use std::alloc::{AllocError, Global};

/// The text in which this name stands in place of so many bytes at each of the places, which are in the order of the text.
pub fn replaced(
    alloc: Global,
    text: &[u8],
    places: &[usize],
    length: usize,
    name: &[u8],
) -> Result<Vec<u8>, AllocError>
    ensures { IfOk result (λ t. t.items ≡ replaced text.now length name.now 0 places.now) }
{
    let mut out = Vec::new(alloc);
    let mut behind = 0usize;
    for place in places {
        out.extend_from_slice(between(text, behind, *place))?;
        out.extend_from_slice(name)?;
        behind = place.saturating_add(length);
    }
    out.extend_from_slice(between(text, behind, text.len()))?;
    Ok(out)
}
