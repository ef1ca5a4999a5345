//! In how many moves each process takes part, by one look at each move.

use promela_run::moves::Move;
use std::alloc::{AllocError, Global};

// One move more of a process.
fn count(counts: &mut Vec<usize>, process: usize) {
    if process < counts.len() {
        counts[process] = counts[process].saturating_add(1);
    }
}

fn count_move(counts: &mut Vec<usize>, m: &Move) {
    match m {
        Move::Death(process) => count(counts, *process),
        Move::Alone(pick, _) => count(counts, pick.process),
        Move::Pair(sender, receiver, _) => {
            count(counts, sender.process);
            if receiver.process != sender.process {
                count(counts, receiver.process);
            }
        }
    }
}

/// Of each of so many processes, in how many moves it takes part.
pub fn counts_of(
    alloc: Global,
    processes: usize,
    moves: &[Move],
) -> Result<Vec<usize>, AllocError> {
    let mut counts = Vec::new(alloc);
    for _ in 0..processes {
        counts.push(0usize)?;
    }
    for m in moves {
        count_move(&mut counts, m);
    }
    Ok(counts)
}

/// That of a process.
pub fn count_at(counts: &[usize], process: usize) -> usize {
    match counts.get(process) {
        Some(count) => *count,
        None => 0,
    }
}
