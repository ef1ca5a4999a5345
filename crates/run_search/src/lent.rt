//! A body that is lent to what is seldom done.

ghost use Rattle.std.specs.Prelude.{◌≡◌};

use run_state::body::Body;

/// The same body. A path that is seldom taken lends one of its own, so that the others keep none in memory.
#[inline(always)]
pub(crate) fn lent<'w, 'p, 'a>(body: &Body<'w, 'p, 'a>) -> Body<'w, 'p, 'a>
    ensures { result ≡ body.now }
{
    Body {
        proctype: body.proctype,
        graph: body.graph,
        statements: body.statements,
    }
}
