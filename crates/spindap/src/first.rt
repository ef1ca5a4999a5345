// What is taken first: choices, or a trail of Spin.
ghost use Rattle.view_walk.specs.Walks.{SameModel};

use crate::launch::Launch;
use devices::SliceSource;
use session::{Answer, Broken};
use std::alloc::AllocError;
use trail_text::marks::Marks;
use view_run::trailed::{Followed, follow_trail};
use view_session::replay::{Along, Replay, ReplayReading};
use view_session::steps::choose;
use view_walk::walk::{Walk, Went};

// Takes the next of the choices. Whether there was one; at a fault its number.
fn take_next(
    walk: &mut Walk<'_, '_>,
    rt: &HostRuntime,
    replay: &mut Replay<SliceSource<'_>>,
    printed: &mut Vec<u8>,
) -> Result<(bool, Option<usize>), Broken>
    ensures { SameModel walk.old walk.new }
{
    let moves = walk.moves()?;
    if moves.is_empty() {
        return Ok((false, None));
    }
    let Answer::Pick(choice) = replay.next(rt.alloc(), walk, moves.as_slice())? else {
        return Ok((false, None));
    };
    match choose(walk, choice, printed)? {
        Went::On => Ok((true, None)),
        Went::Faults(_) => Ok((false, Some(choice))),
        Went::Nowhere => Ok((false, None)),
    }
}

// Takes choices. The move at which they come to a fault.
fn take_all(
    walk: &mut Walk<'_, '_>,
    rt: &HostRuntime,
    choices: &[u8],
    limit: usize,
    printed: &mut Vec<u8>,
) -> Result<Option<usize>, Broken>
    ensures { SameModel walk.old walk.new }
{
    let mut replay = Replay::Read(ReplayReading::new(SliceSource::new(choices)));
    for _turn in walk.at()..limit {
        let (goes_on, fault) = take_next(walk, rt, &mut replay, printed)?;
        if !goes_on {
            return Ok(fault);
        }
    }
    Ok(None)
}

// Follows a trail. The move at which it comes to a fault, and whether it was followed to its end.
fn follow(
    walk: &mut Walk<'_, '_>,
    rt: &HostRuntime,
    marks: &Marks,
    text: &[u8],
    limit: usize,
) -> Result<(Option<usize>, bool), AllocError>
    ensures { SameModel walk.old walk.new }
{
    let came = follow_trail(walk, marks, text, limit, Vec::new(rt.alloc()))?;
    let is_whole = matches!(
        came.followed,
        Followed::Whole | Followed::Limit | Followed::Fault(_, None)
    );
    match came.followed.along() {
        Along::Fault(choice) => Ok((Some(choice), is_whole)),
        _ => Ok((None, is_whole)),
    }
}

// What came of what was taken first.
#[derive(Clone, Copy)]
pub struct FirstTaken {
    // the move that comes to a fault
    pub faulting: Option<usize>,
    // whether a trail was followed to its end
    pub is_whole: bool,
}

// Takes what is to be taken first.
pub fn take_first(
    walk: &mut Walk<'_, '_>,
    rt: &HostRuntime,
    launch: &Launch,
    marks: &Marks,
    printed: &mut Vec<u8>,
) -> Result<FirstTaken, AllocError>
    ensures { SameModel walk.old walk.new }
{
    if let Some(trail) = &launch.trail {
        let (faulting, is_whole) = follow(walk, rt, marks, trail.as_slice(), launch.limit)?;
        return Ok(FirstTaken { faulting, is_whole });
    }
    let faulting = match &launch.choices {
        Some(choices) => match take_all(walk, rt, choices.as_slice(), launch.limit, printed) {
            Ok(faulting) => faulting,
            Err(_) => return Err(AllocError),
        },
        None => None,
    };
    Ok(FirstTaken {
        faulting,
        is_whole: true,
    })
}
