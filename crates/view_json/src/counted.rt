//! Moves, and in how many of them each process takes part, counted for all at once.

ghost use Rattle.std.specs.Prelude.{◌≡◌, ◌<◌, ◌+◌, ◌^◌, ◌++◌, ℕ, List, length, slice_index_or, nat_eq, if◌then◌else◌, count_by, IfOk, OnOk};
ghost use Rattle.run_search.specs.Laws.{taker};
ghost use Rattle.promela_run.specs.Moves.{moves as all_moves};
ghost use Rattle.view_waits.specs.Waits.{takes_part, waits as all_waits};
ghost use Rattle.view_json.specs.Counts.{AreCounts, OneMore, other_taker};

use promela_run::moves::Move;
use run_state::live::Live;
use std::alloc::{AllocError, Global};
use std::marker::Model;
use view_waits::waits::{Wait, add_waits, moves_of, starter_of};

// Who takes part in a move beside who begins it, or else who begins it.
fn other_of(m: &Move) -> usize
    ensures { result ≡ other_taker m.now }
{
    match m {
        Move::Death(process) => *process,
        Move::Alone(pick, _) => pick.process,
        Move::Pair(_, receiver, _) => receiver.process,
    }
}

// Counts one more for a process.
fn count_one(counts: &mut Vec<usize>, process: usize)
    requires { slice_index_or counts.old.items process 0 + 1 < 2 ^ 64 }
    ensures len { length counts.new.items ≡ length counts.old.items }
    ensures one { OneMore counts.old.items counts.new.items process }
{
    if process < counts.len() {
        counts[process] = counts[process] + 1;
    }
}

// In how many of these moves each of so many processes takes part.
fn counts_of(alloc: Global, processes: usize, moves: &[Move]) -> Result<Vec<usize>, AllocError>
    ensures { IfOk result (λ v. AreCounts processes v.items moves.now) }
{
    let mut counts = Vec::new(alloc);
    counts.resize(processes, 0usize)?;
    for m in moves {
        let first = starter_of(m);
        let second = other_of(m);
        count_one(&mut counts, first);
        if first != second {
            count_one(&mut counts, second);
        }
    }
    Ok(counts)
}

/// Moves, with the numbers of those in which each process takes part.
#[derive(Drop)]
pub struct Counted<'m> {
    moves: &'m [Move],
    counts: Vec<usize>,
}

impl<'m> Model for Counted<'m> {
    ghost use Rattle.std.specs.Prelude.{List, length};
    ghost use Rattle.promela_run.specs.declared.moves.Move.{Move};
    ghost use Rattle.view_json.specs.Counts.{AreCounts};

    ghost Value = { List Move };

    ghost view = { λ c. c.moves.now };

    ghost invariant = { λ c. AreCounts (length c.counts.items) c.counts.items c.moves.now };
}

impl<'m> Counted<'m> {
    /// Moves that are counted for so many processes.
    pub fn new(
        alloc: Global,
        processes: usize,
        moves: &'m [Move],
    ) -> Result<Counted<'m>, AllocError>
        ensures { IfOk result (λ c. c ≡ moves.now) }
    {
        let counts = counts_of(alloc, processes, moves)?;
        Ok(Counted { moves, counts })
    }

    /// In how many of them a process takes part.
    pub fn of(&self, process: usize) -> usize
        ensures { result ≡ count_by (takes_part process) self.now }
    {
        match self.counts.get(process) {
            Some(count) => *count,
            None => moves_of(process, self.moves),
        }
    }

    /// Adds what a process waits for, where these are the present moves: nothing, where it takes part in one.
    pub fn add_waits(
        &'m self,
        live: &'m Live<'_, '_>,
        process: usize,
        waits: &mut Vec<Wait>,
    ) -> Result<(), AllocError>
        ensures { self.now ≡ all_moves live.now.state → OnOk result (waits.new.items ≡ waits.old.items ++ all_waits live.now.state process) }
    {
        if self.of(process) > 0 {
            return Ok(());
        }
        add_waits(live, self.moves, process, waits)
    }
}
