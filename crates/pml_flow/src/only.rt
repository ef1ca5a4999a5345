//! Where the edges of a node's one level stand, where it has just one, as most nodes have.

ghost use Rattle.std.specs.Prelude.{◌≡◌, slice_range};
ghost use Rattle.pml_flow.specs.Only.{only_span};

use crate::arms::{begin_of, between, bound};

/// Where a level's edges begin among all, and where they end.
#[derive(Clone, Copy, Debug, PartialEq, Eq)]
pub struct Span {
    pub begin: usize,
    pub end: usize,
}

/// Where the edges of the one of these levels stand, if there is just one.
pub fn only_span(bounds: &[usize], levels: &[usize]) -> Option<Span>
    ensures { result ≡ only_span bounds.now levels.now }
{
    if levels.len() != 1 {
        return None;
    }
    let level = levels[0];
    Some(Span {
        begin: begin_of(bounds, level),
        end: bound(bounds, level),
    })
}

/// What stands there.
pub fn spanned<T>(all: &[T], span: Span) -> &[T]
    ensures { result.now ≡ slice_range all.now span.begin span.end }
{
    between(all, span.begin, span.end)
}
