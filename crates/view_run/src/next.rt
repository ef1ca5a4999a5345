//! What follows in a run.

ghost use Rattle.std.specs.Prelude.{◌≡◌};
ghost use Rattle.promela_run.specs.World as world;

use devices::Source;
use promela_run::moves::Move;
use session::{Answer, Broken};
use std::alloc::Global;
use view_session::replay::Replay;
use view_state::choices::ending_of;
use view_walk::walk::Walk;

/// The next step of a run, or why it ends.
#[derive(Clone, Copy, Debug, PartialEq, Eq)]
pub enum Next {
    /// The number of the move that is taken.
    Take(usize),
    End(&'static str),
}

/// Whether choices that do not fit ended a run that ended so.
pub fn is_misfit(end: &str) -> bool {
    end == "choice misfit" || end == "line too long" || end == "100 bad choices"
}

/// What follows where a walk stands, which has these moves.
pub fn follow<S: Source>(
    alloc: Global,
    walk: &Walk<'_, '_>,
    moves: &[Move],
    replay: &mut Replay<S>,
    limit: usize,
) -> Result<Next, Broken>
    requires { moves.now ≡ world.world_moves walk.now.state }
{
    if moves.is_empty() {
        return Ok(Next::End(ending_of(walk.world().live())));
    }
    if walk.at() >= limit {
        return Ok(Next::End("step limit"));
    }
    match replay.next(alloc, walk, moves)? {
        Answer::Pick(choice) => Ok(Next::Take(choice)),
        other => Ok(Next::End(replay.end_of(other))),
    }
}

/// The move with this number, counted from 1.
pub fn move_at(moves: &[Move], choice: usize) -> Option<Move> {
    if choice == 0 {
        return None;
    }
    match moves.get(choice - 1) {
        Some(m) => Some(*m),
        None => None,
    }
}
