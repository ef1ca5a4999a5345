//! The conversion of the choices of a session over a text.

ghost use Rattle.std.specs.Prelude.{◌≡◌, ℕ, List};
ghost use Rattle.promela_session.specs.declared.ends.End.{End};
ghost use Rattle.promela_session.specs.Events.{Part};
ghost use Rattle.promela_session.specs.Session.{end_of};
ghost use Rattle.pml_play.specs.Transcript.{Converts, IsAlwaysConverted};
ghost use Rattle.pml_play.specs.Converting.{ConvertsModel, ConvertsReady, cause_rejected};
ghost use Rattle.pml_play.specs.Transcript.{IsTranscript};

use crate::whole::{Rejection, checked_of, expanded_of, world_of};
use devices::{Sink, Source};
use pml_check::Checked;
use pml_sim::world::World;
use session::{Cause, Conversion, End, Held, Options, end_of};
use std::alloc::Global;

/// How the conversion over a rejected text ends.
fn end_rejected(rejection: Rejection) -> End
    ensures { result ≡ end_of (cause_rejected rejection) 0 }
{
    match rejection {
        Rejection::Memory => end_of(Cause::Memory, 0),
        Rejection::Refused(refusal, line) => end_of(Cause::Refused(refusal, line), 0),
    }
}

/// Converts the choices of a model from its first state, which is let go.
fn convert_world<S: Source, O: Sink>(
    alloc: Global,
    world: World<'_, '_>,
    options: &Options,
    devices: &mut Conversion<S, O>,
) -> End
    ensures left { (left : List ℕ) × S.may_give devices.new.source left }
    ensures part { let held = ⟦<Conversion<S, O> as Held>⟧.held in ConvertsModel world.entry options.now (held devices.old) (held devices.new) result }
{
    let mut world = world;
    session::convert(alloc, &mut world, options, devices)
}

/// Converts the choices of a checked model.
fn convert_checked<S: Source, O: Sink>(
    alloc: Global,
    checked: &Checked<'_>,
    options: &Options,
    devices: &mut Conversion<S, O>,
) -> End
    ensures part { let held = ⟦<Conversion<S, O> as Held>⟧.held in ConvertsReady checked.now options.now (held devices.old) (held devices.new) result }
{
    match world_of(alloc, checked, options.lossy) {
        Ok(world) => convert_world(alloc, world, options, devices),
        Err(rejection) => end_rejected(rejection),
    }
}

/// Plays the text of a model, and writes its choices in the second version in place of its output and its record: the first line once
/// the model is accepted, and the line of each accepted number before its step. A refused text gives no byte.
pub fn convert<S: Source, O: Sink>(
    alloc: Global,
    text: &[u8],
    options: &Options,
    devices: &mut Conversion<S, O>,
) -> End
    ensures left { (left : List ℕ) × S.may_give devices.new.source left }
    ensures part { let held = ⟦<Conversion<S, O> as Held>⟧.held in Converts text.now options.now (held devices.old) (held devices.new) result }
    ensures law { (run : List ℕ → Part End) → IsTranscript text.now options.now run → IsAlwaysConverted run }
{
    let tokens = match expanded_of(alloc, text) {
        Ok(tokens) => tokens,
        Err(rejection) => return end_rejected(rejection),
    };
    match checked_of(alloc, &tokens) {
        Ok(checked) => convert_checked(alloc, &checked, options, devices),
        Err(rejection) => end_rejected(rejection),
    }
}
