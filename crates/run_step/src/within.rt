//! A d_step: at each point inside, the first choice is taken until control leaves.

ghost use Rattle.std.specs.Prelude.{◌≡◌, ◌<◌, Some, IfSome, OnOk, length, option_map, slice_get};
ghost use Rattle.std.specs.Io.{StartsWith};
ghost use Rattle.std.specs.Option.{option_copied};
ghost use Rattle.run_state.specs.Standing.{IsBody};
ghost use Rattle.profile.specs.declared.TheConstants.{MOST_DSTEP_STATEMENTS};
ghost use Rattle.run_state.specs.Coded.{IsNumbered};
ghost use Rattle.run_state.specs.Live.{Joins, PastGrows};
ghost use Rattle.run_step.specs.Done.{Grows};
ghost use Rattle.promela_run.specs.Steps.{body_by};
ghost use Rattle.run_step.specs.Taking.{DoesWithin};
ghost use Rattle.run_step.specs.Inside.{ChoosesAt, AdvancesAt};

use crate::effect::effect;
use diagnostics::{Fault, Stop};
use pml_program::program::Basic;
use profile::MOST_DSTEP_STATEMENTS;
use run_search::d_step::choice;
use run_state::body::Body;
use run_state::live::Live;
use run_state::seat::seat_at;

/// What is taken inside a d_step, and where control is then.
#[derive(Clone, Copy, Debug, PartialEq, Eq)]
enum Inner {
    /// Outside.
    Left,
    /// At this node, inside.
    At(usize),
}

/// A statement that is chosen, without its labels; its number, the node that follows, and whether that lies inside.
#[derive(Drop)]
struct Choice<'p, 'a> {
    basic: Option<&'p Basic<'a>>,
    statement: usize,
    next: usize,
    stays: bool,
}

/// The body in which a process stands.
fn body_in<'w, 'p, 'a>(live: &'w Live<'p, 'a>, process: usize) -> Option<Body<'w, 'p, 'a>>
    ensures body { option_map (λ k. k.proctype.now.body) result ≡ body_by live.now.state (slice_get live.now.state.stands process) }
    ensures is { IfSome result IsBody }
{
    let seat = *seat_at(live.seats(), process)?;
    live.body(seat.sort)
}

/// What is taken at a node inside a d_step.
fn chosen<'p, 'a>(
    live: &Live<'p, 'a>,
    process: usize,
    timeout: bool,
    node: usize,
) -> Option<Choice<'p, 'a>>
    requires { process < length live.now.state.stands }
    ensures value { ChoosesAt live.now.state process timeout node result }
    ensures numbered { IfSome result (λ k. IsNumbered live.now.state process k.statement (option_copied k.basic)) }
{
    let body = body_in(live, process)?;
    let edge = choice(&body, &live.view(process, timeout), live.is_lossy(), node)?;
    Some(Choice {
        basic: body.basic(edge),
        statement: edge.statement,
        next: edge.target,
        stays: edge.stays,
    })
}

/// Takes one statement inside a d_step.
fn advance(
    live: &mut Live<'_, '_>,
    process: usize,
    timeout: bool,
    node: usize,
    text: &mut Vec<u8>,
) -> Result<Inner, Stop>
    requires { process < length live.old.state.stands }
    ensures value { AdvancesAt live.old.state process timeout node result live.new.state text.old.items text.new.items }
    ensures joins { Joins live.old.state live.new.state }
    ensures past { OnOk result (PastGrows live.old live.new) }
    ensures kept { StartsWith text.new.items text.old.items }
{
    let Some(choice) = chosen(live, process, timeout, node) else {
        return Err(Stop::Fault(Fault::DStepBlocks));
    };
    effect(live, process, timeout, choice.basic, choice.statement, text)?;
    if choice.stays {
        return Ok(Inner::At(choice.next));
    }
    Ok(Inner::Left)
}

/// Takes statements inside a d_step until control leaves it, at most so many. `timeout` is for the first of them.
fn within_at_most(
    live: &mut Live<'_, '_>,
    process: usize,
    timeout: bool,
    entry: usize,
    most: usize,
    text: &mut Vec<u8>,
) -> Result<(), Stop>
    requires { process < length live.old.state.stands }
    ensures value { let s = live.old.state in
        DoesWithin most s process timeout (Some entry) result live.new.state text.old.items text.new.items }
    ensures grows { Grows result live.old live.new text.old.items text.new.items }
{
    let mut timeout_here = timeout;
    let mut node = entry;
    for _taken in 0..most {
        match advance(live, process, timeout_here, node, text)? {
            Inner::Left => return Ok(()),
            Inner::At(next) => node = next,
        }
        timeout_here = false;
    }
    Err(Stop::Fault(Fault::DStepTooLong))
}

/// Takes the statements of a d_step, from the node inside at which it begins until control leaves it.
pub fn within(
    live: &mut Live<'_, '_>,
    process: usize,
    timeout: bool,
    entry: usize,
    text: &mut Vec<u8>,
) -> Result<(), Stop>
    requires { process < length live.old.state.stands }
    ensures value { let s = live.old.state in
        DoesWithin MOST_DSTEP_STATEMENTS s process timeout (Some entry) result live.new.state text.old.items text.new.items }
    ensures grows { Grows result live.old live.new text.old.items text.new.items }
{
    within_at_most(live, process, timeout, entry, MOST_DSTEP_STATEMENTS, text)
}
