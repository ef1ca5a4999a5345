//! A run of which nothing is shown.

ghost use Rattle.view_walk.specs.Walks.{SameModel};

use crate::next::{Next, follow};
use devices::Source;
use session::Broken;
use view_session::replay::Replay;
use view_session::steps::choose;
use view_walk::walk::{Walk, Went};

/// How a run ended, and how many processes lived at once at most.
#[derive(Clone, Copy, Debug, PartialEq, Eq)]
pub struct Ran {
    pub end: &'static str,
    pub most: usize,
}

// Takes the next step. Why the run ends, where it does.
fn step<S: Source>(
    walk: &mut Walk<'_, '_>,
    replay: &mut Replay<S>,
    limit: usize,
    printed: &mut Vec<u8>,
) -> Result<Option<&'static str>, Broken>
    ensures { SameModel walk.old walk.new }
{
    let moves = walk.moves()?;
    let alloc = *printed.allocator();
    match follow(alloc, walk, moves.as_slice(), replay, limit)? {
        Next::End(end) => Ok(Some(end)),
        Next::Take(choice) => {
            printed.clear();
            match choose(walk, choice, printed)? {
                Went::On => Ok(None),
                Went::Faults(_) => Ok(Some("fault")),
                Went::Nowhere => Ok(Some("choice misfit")),
            }
        }
    }
}

/// Runs to the end.
pub fn run<S: Source>(
    walk: &mut Walk<'_, '_>,
    replay: &mut Replay<S>,
    limit: usize,
    printed: &mut Vec<u8>,
) -> Result<Ran, Broken>
    ensures { SameModel walk.old walk.new }
{
    let mut most = walk.world().process_count();
    for _turn in 0..u64::MAX {
        if let Some(end) = step(walk, replay, limit, printed)? {
            return Ok(Ran { end, most });
        }
        most = most.max(walk.world().process_count());
    }
    Ok(Ran {
        end: "step limit",
        most,
    })
}
