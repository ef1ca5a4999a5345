//! Processes beside one another at one seat: one is asked for all, where it can be.

#![tactic(auto, using(crate::proofs::Keeping::kept_on, crate::proofs::Keeping::kept_same, crate::proofs::Keeping::kept_push))]

ghost use Rattle.std.specs.Prelude.{◌≡◌, ◌+◌, ◌++◌, ◌<◌, ◌≤◌, true, [], Some, OnOk, IfOk, length, drop, slice_get};
ghost use Rattle.run_search.specs.Kept.{Extends};
ghost use Rattle.run_search.specs.Round.{IsKnown, round_at, round_behind, round_under};
ghost use Rattle.run_search.specs.Together.{StandThere};
ghost use Rattle.run_state.specs.Standing.{stand_of};

use crate::common::{add_copies, is_common_seat, next_elsewhere};
use crate::demand::OwnMoves;
use crate::demands::own_moves;
use crate::process::add_moves_at;
use crate::round::{Round, is_unheard};
use promela_run::moves::Move;
use run_state::seat::Seat;
use std::alloc::AllocError;

/// Whether it is known that a process has no move.
#[inline(always)]
fn has_no_move(round: &Round<'_, '_, '_>, process: usize, seat: Seat) -> bool
    requires known { IsKnown round.now }
    requires stands { let s = round.now.live.now.state in slice_get s.stands process ≡ Some (stand_of s.program seat) }
    ensures { result ≡ true → round_at round.now process seat ≡ [] }
{
    match own_moves(round.demands, process) {
        OwnMoves::Unknown => false,
        OwnMoves::Nothing => true,
        OwnMoves::Over(number) => is_unheard(round, number),
    }
}

/// Adds the moves of a process: at once, where it is known to have none.
#[inline(always)]
fn add_moves_asked(
    round: &Round<'_, '_, '_>,
    process: usize,
    seat: Seat,
    moves: &mut Vec<Move>,
) -> Result<(), AllocError>
    requires known { IsKnown round.now }
    requires there { process < length round.now.live.now.state.stands }
    requires stands { let s = round.now.live.now.state in slice_get s.stands process ≡ Some (stand_of s.program seat) }
    ensures added { OnOk result (moves.new.items ≡ moves.old.items ++ round_at round.now process seat) }
    ensures kept { Extends moves.new.items moves.old.items }
{
    if has_no_move(round, process, seat) {
        return Ok(());
    }
    add_moves_at(round, process, seat, moves)
}

/// Adds the moves of processes who stand at one seat, one after another.
fn add_each(
    round: &Round<'_, '_, '_>,
    first: usize,
    end: usize,
    seat: Seat,
    moves: &mut Vec<Move>,
) -> Result<(), AllocError>
    requires known { IsKnown round.now }
    requires order { first ≤ end }
    requires within { end ≤ length round.now.live.now.state.stands }
    requires there { StandThere round.now.live.now.state seat first end }
    ensures added { OnOk result (moves.new.items ++ round_behind round.now end ≡ moves.old.items ++ round_behind round.now first) }
    ensures kept { Extends moves.new.items moves.old.items }
{
    for process in first..end {
        add_moves_asked(round, process, seat, moves)?;
    }
    Ok(())
}

/// Adds the moves of the processes behind one that was asked, up to another, who stand where it does; its own begin at this place.
#[inline(never)]
fn add_moves_behind(
    round: &Round<'_, '_, '_>,
    asked: usize,
    end: usize,
    seat: Seat,
    begin: usize,
    moves: &mut Vec<Move>,
) -> Result<(), AllocError>
    requires known { IsKnown round.now }
    requires order { asked < end }
    requires older { end < length round.now.live.now.state.stands }
    requires there { StandThere round.now.live.now.state seat asked end }
    requires moves { drop begin moves.old.items ≡ round_at round.now asked seat }
    ensures added { OnOk result (moves.new.items ++ round_behind round.now end ≡ moves.old.items ++ round_behind round.now (asked + 1)) }
    ensures kept { Extends moves.new.items moves.old.items }
{
    if !is_common_seat(round.live, seat) {
        return add_each(round, asked + 1, end, seat, moves);
    }
    let behind = moves.len();
    if begin == behind {
        return Ok(());
    }
    for process in asked + 1..end {
        add_copies(process, begin, behind, moves)?;
    }
    Ok(())
}

/// Adds the moves of a process and of those behind it who stand where it does: who comes next.
#[inline(always)]
fn add_moves_of_run(
    round: &Round<'_, '_, '_>,
    process: usize,
    moves: &mut Vec<Move>,
) -> Result<usize, AllocError>
    requires known { IsKnown round.now }
    requires there { process < length round.now.live.now.state.stands }
    ensures added { IfOk result (λ end. moves.new.items ++ round_behind round.now end ≡ moves.old.items ++ round_behind round.now process) }
    ensures on { IfOk result (λ end. process < end) }
    ensures kept { Extends moves.new.items moves.old.items }
{
    let seat = round.live.seats()[process];
    let begin = moves.len();
    add_moves_asked(round, process, seat, moves)?;
    let end = next_elsewhere(round.live, process, seat);
    if process + 1 < end {
        add_moves_behind(round, process, end, seat, begin, moves)?;
    }
    Ok(end)
}

/// Adds the moves of all processes, where many live: of those beside one another at one seat one is asked, if it may answer for all.
#[inline(never)]
pub(crate) fn add_moves_of_many(
    round: &Round<'_, '_, '_>,
    moves: &mut Vec<Move>,
) -> Result<(), AllocError>
    requires { IsKnown round.now }
    ensures added { OnOk result (moves.new.items ≡ moves.old.items ++ round_under round.now) }
    ensures kept { Extends moves.new.items moves.old.items }
{
    let count = round.live.process_count();
    let mut process = 0;
    while process < count {
        process = add_moves_of_run(round, process, moves)?;
    }
    Ok(())
}
