//! The session whose choices are converted to the second version.
ghost use Rattle.std.specs.Prelude.{◌≡◌, ◌≢◌, ◌<◌, List, ℕ, IfOk};
ghost use Rattle.session.specs.Converting.{conversion, noting, quiet, failure_converting, CanBeConverted, StandsOwn};
ghost use Rattle.promela_session.specs.Session.{end_of, transcript};
ghost use Rattle.session.specs.Writes.{CountsAll, Runs, EndsOwn, EndsBroken, IsOwnEnd};

use crate::whole::{end_of, run};
use crate::{Broken, Cause, End, Machine, Options, Version};
use devices::{Devices, Failed, Next, Sink, Source, put_all};
use std::alloc::Global;

/// A source of choices, and a sink for them in the second version. As the devices of a session, the sink takes the record, and what
/// is put out is lost.
#[derive(Drop)]
pub struct Conversion<S, O> {
    /// The choices.
    pub source: S,
    /// The choices in the second version.
    pub out: O,
}

impl<S: Source, O: Sink> Devices for Conversion<S, O> {
    ghost use Rattle.std.specs.Prelude.{None};
    ghost use Rattle.devices.specs.Doing.{holding};

    ghost holds = { λ d. holding (S.may_give d.source) None (O.taken d.out) (S.failures d.source) 0 (O.failures d.out) };

    ghost some_left = { λ d. S.some_left d.source };

    fn next(&mut self) -> Next {
        self.source.next()
    }

    fn write(&mut self, _: &[u8]) -> Result<(), Failed> {
        Ok(())
    }

    fn write_counted(&mut self, _: &[u8]) -> Result<(), usize> {
        Ok(())
    }

    fn keep(&mut self, line: &[u8]) -> Result<(), Failed> {
        put_all(&mut self.out, line)
    }
}

/// What devices hold that are more to their caller than to the session that they are handed to.
pub trait Held {
    ghost use Rattle.devices.specs.Holdings.{Holdings};

    /// What they hold, as their caller sees it.
    ghost held: { Self → Holdings };
}

impl<S: Source, O: Sink> Held for Conversion<S, O> {
    ghost use Rattle.std.specs.Prelude.{None};
    ghost use Rattle.devices.specs.Doing.{holding};

    ghost held = { λ d. holding (S.may_give d.source) (O.taken d.out) None (S.failures d.source) (O.failures d.out) 0 };
}

// The same limit, and nothing is shown.
fn quiet(options: &Options) -> Options
    ensures { result ≡ quiet options.now }
{
    Options {
        steps: false,
        globals: false,
        locals: false,
        lossy: options.lossy,
        limit: options.limit,
    }
}

// Records the first line of the second version, runs the session with a record in that version, and counts its steps.
fn run_noting<M: Machine, D: Devices>(
    alloc: Global,
    machine: &mut M,
    options: &Options,
    steps: &mut u32,
    devices: &mut D,
) -> Result<End, Broken>
    requires { steps.old ≡ 0 }
    ensures part { Runs result (D.holds devices.old) (D.holds devices.new) steps.new (noting M.rules options.now machine.old) }
    ensures own { IfOk result (IsOwnEnd steps.new) }
    ensures count { CountsAll result (D.holds devices.old).failures (D.holds devices.new).failures }
{
    match devices.keep(b"choices 2\n") {
        Ok(()) => run(alloc, Version::Second, machine, options, steps, devices),
        Err(_) => Err(Broken::Record),
    }
}

// The cause of a conversion that was broken off.
fn failure_converting(broken: Broken) -> Cause
    ensures { result ≡ failure_converting broken }
{
    match broken {
        Broken::Source => Cause::SourceFailed,
        Broken::Out | Broken::Record => Cause::OutFailed,
        Broken::Memory => Cause::Memory,
    }
}

/// Plays the session of a machine, and writes its choices in the second version in place of its output and its record: the first line
/// at once, and the line of each accepted number before its step. Where the status is not 6, the sink has taken exactly these, exactly
/// the bytes that the session asks for were read, and the end of its transcript is answered. Where it is 6, what source and sink hold
/// is where a beginning of the conversion's events leaves them. What is written stands for the record: played on it, the session does
/// the same as on the record.
pub fn convert<M: Machine, S: Source, O: Sink>(
    alloc: Global,
    machine: &mut M,
    options: &Options,
    devices: &mut Conversion<S, O>,
) -> End
    ensures left { (left : List ℕ) × S.may_give devices.new.source left }
    ensures whole { let h = ⟦<Conversion<S, O> as Held>⟧.held in EndsOwn (h devices.old) (h devices.new) (conversion M.rules options.now machine.old) result }
    ensures source { result.status ≢ 6 → S.failures devices.new.source ≡ S.failures devices.old.source }
    ensures out { result.status ≢ 6 → O.failures devices.new.out ≡ O.failures devices.old.out }
    ensures broken { let h = ⟦<Conversion<S, O> as Held>⟧.held in EndsBroken (h devices.old) (h devices.new) (conversion M.rules options.now machine.old) result }
    ensures end { result ≡ end_of result.cause result.steps }
    ensures stands { StandsOwn (S.may_give devices.old.source) (S.may_give devices.new.source) (transcript M.rules options.now machine.old) result }
    ensures law { CanBeConverted (transcript M.rules options.now machine.old) }
{
    let mut steps = 0;
    match run_noting(alloc, machine, &quiet(options), &mut steps, devices) {
        Ok(end) => end,
        Err(broken) => end_of(failure_converting(broken), steps),
    }
}
