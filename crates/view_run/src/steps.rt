//! A run as the lines of its steps.

ghost use Rattle.view_text.specs.Written.{Stays};
ghost use Rattle.view_walk.specs.Walks.{SameModel};

use crate::next::{Next, follow};
use devices::Source;
use session::Broken;
use view_session::replay::Replay;
use view_session::steps::{Taken, take};
use view_session::told::Told;
use view_state::choices::add_ending;
use view_text::writer::Writer;
use view_walk::walk::Walk;

// Writes why a run ends that still has moves.
fn add_stop(end: &str, steps: usize, out: &mut Writer)
    ensures { Stays out.old out.new }
{
    out.add(b"end: ");
    out.add(end.as_bytes());
    out.add(b", steps ");
    out.number(steps);
    out.add(b"\n");
}

fn add_last(walk: &Walk<'_, '_>, end: &str, has_moves: bool, out: &mut Writer)
    ensures { Stays out.old out.new }
{
    if has_moves {
        add_stop(end, walk.at(), out);
    } else {
        add_ending(walk.world().live(), walk.at(), out);
    }
}

/// Takes the next step of a run and writes its lines, or those of its end. Why it ends, where it does.
pub fn add_step<S: Source>(
    walk: &mut Walk<'_, '_>,
    replay: &mut Replay<S>,
    limit: usize,
    told: &mut Told,
) -> Result<Option<&'static str>, Broken>
    ensures model { SameModel walk.old walk.new }
    ensures stays { Stays told.old.out told.new.out }
{
    let moves = walk.moves()?;
    let alloc = told.out.allocator();
    match follow(alloc, walk, moves.as_slice(), replay, limit)? {
        Next::End(end) => {
            add_last(walk, end, !moves.is_empty(), &mut told.out);
            Ok(Some(end))
        }
        Next::Take(choice) => match take(walk, limit, choice, told)? {
            Taken::Yes => Ok(None),
            Taken::Faulted => Ok(Some("fault")),
            _ => Ok(Some("choice misfit")),
        },
    }
}
