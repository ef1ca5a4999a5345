//! Who is asked first: the process that holds exclusive control, or the only one.

ghost use Rattle.std.specs.Prelude.{◌≡◌, ◌<◌, false, [], None, Some, IfSome, length, slice_get};
ghost use Rattle.promela_run.specs.State.{Stand};
ghost use Rattle.promela_run.specs.Moves.{moves_at, moves_held};
ghost use Rattle.run_search.specs.First.{AreFirst};

use run_state::live::Live;

/// The process whose moves are those of the state, if it has any: the one that holds exclusive control, or the only one.
#[inline(always)]
#[tactic(auto, using(crate::proofs::First::of_holder, crate::proofs::First::of_only, crate::proofs::First::none_holds, crate::proofs::Placing::none_held))]
pub(crate) fn first_asked(live: &Live<'_, '_>) -> Option<usize>
    ensures there { IfSome result (λ p. p < length live.now.state.stands) }
    ensures first { IfSome result (λ p. (y : Stand) → slice_get live.now.state.stands p ≡ Some y
        → AreFirst live.now.state (moves_at live.now.state p false y)) }
    ensures none { result ≡ None → moves_held live.now.state live.now.state.holder ≡ [] }
{
    let count = live.process_count();
    match live.holder() {
        Some(process) => { if process < count { Some(process) } else { None } }
        None => { if count == 1 { Some(0) } else { None } }
    }
}
