//! How a run goes on.

ghost use Rattle.std.specs.Prelude.{length};
ghost use Rattle.walk_answers.specs.Choosing.{IsOfMoves, IsNumber};

use crate::halt::RunHalt;
use promela_run::moves::Move;
use rand_core::utils::NextWord;
use rand_pcg::Pcg32;
use view_waits::waits::{moves_of, takes_part};

/// How a run goes on.
#[derive(Drop)]
pub enum Choosing {
    /// Where there is one move.
    Ask,
    /// By the first move.
    First,
    /// By the moves of the process with this number alone, where it has one.
    Process(usize),
    /// By a generator.
    Chance(Pcg32),
}

/// What follows where a run stands.
#[derive(Clone, Copy, Debug, PartialEq, Eq)]
pub enum FollowingMove {
    /// The move with this number, from 1.
    Take(usize),
    Stop(RunHalt),
}

// The number of the first move in which a process takes part, from 1.
fn first_of(moves: &[Move], process: usize) -> Option<usize>
    ensures { IsNumber (length moves.now) result }
{
    for at in 0..moves.len() {
        if takes_part(process, &moves[at]) {
            return Some(at + 1);
        }
    }
    None
}

fn of_process(moves: &[Move], process: usize) -> FollowingMove
    ensures { IsOfMoves (length moves.now) result }
{
    match first_of(moves, process) {
        Some(first) if moves_of(process, moves) == 1 => FollowingMove::Take(first),
        Some(_) => FollowingMove::Stop(RunHalt::Choice),
        None => FollowingMove::Stop(RunHalt::Blocked(process)),
    }
}

impl Choosing {
    /// By the generator with this seed.
    pub fn by_chance(seed: u64) -> Choosing {
        Choosing::Chance(Pcg32::new(seed, 54))
    }

    /// What follows where there are these moves.
    pub fn next(&mut self, moves: &[Move]) -> FollowingMove
        ensures { IsOfMoves (length moves.now) result }
    {
        if moves.is_empty() {
            return FollowingMove::Stop(RunHalt::End);
        }
        match self {
            Choosing::Process(process) => of_process(moves, *process),
            _ if moves.len() == 1 => FollowingMove::Take(1),
            Choosing::Ask => FollowingMove::Stop(RunHalt::Choice),
            Choosing::First => FollowingMove::Take(1),
            Choosing::Chance(generator) => {
                FollowingMove::Take(generator.next_word() as usize % moves.len() + 1)
            }
        }
    }
}
