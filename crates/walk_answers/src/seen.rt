//! What is seen of a state, by what lives in it alone: two walks that stand in one state show the same.

ghost use Rattle.std.specs.Prelude.{◌≡◌, ◌++◌, [], IfOk};
ghost use Rattle.promela_run.specs.Moves.{moves as all_moves};

use promela_run::moves::Move;
use run_search::search::add_moves;
use run_state::live::Live;
use std::alloc::{AllocError, Global};

/// The moves of a state.
pub fn moves_in(alloc: Global, live: &Live<'_, '_>) -> Result<Vec<Move>, AllocError>
    ensures { IfOk result (λ v. v.items ≡ all_moves live.now.state) }
{
    let mut moves = Vec::new(alloc);
    add_moves(live, &mut moves)?;
    Ok(moves)
}
