//! Choices that are taken without a question: of a record of either version, of a generator, or those of a walk that are still to come.

ghost use Rattle.std.specs.Prelude.{◌≡◌, length};
ghost use Rattle.promela_run.specs.World as world;
ghost use Rattle.promela_session.specs.Events.{prompt};
ghost use Rattle.promela_session.specs.declared.form.Stream.TheVariants.{Unread};
ghost use Rattle.view_session.specs.Replaying.{ReadsAnswer};

use crate::notes::Notes;
use devices::{Devices, Failed, Nowhere, Sink, Source, ThreeDevices};
use promela_run::moves::Move;
use rand_core::utils::NextWord;
use rand_pcg::Pcg32;
use session::question::{prompt_of, question};
use session::{Answer, Broken, Stream};
use std::alloc::Global;
use view_walk::leg::Leg;
use view_walk::walk::Walk;

/// Why a run ends that is answered so.
pub fn end_of(said: Answer) -> &'static str {
    match said {
        Answer::Pick(_) => "choice",
        Answer::Quit => "quit",
        Answer::Ended => "choices ended",
        Answer::TooLong => "line too long",
        Answer::Hundred => "100 bad choices",
        Answer::Misfit => "choice misfit",
    }
}

/// Takes what a session writes at a bad line, and keeps how many there were.
#[derive(Drop)]
pub struct BadLines {
    pub count: u32,
}

impl Sink for BadLines {
    ghost use Rattle.std.specs.Prelude.{None};

    ghost taken = { λ _. None };

    ghost failures = { λ _. 0 };

    fn put(&mut self, piece: &[u8]) -> Result<usize, Failed> {
        if piece == b"bad choice\n".as_slice() {
            self.count = self.count.saturating_add(1);
        }
        Ok(piece.len())
    }
}

/// Choices that are read, of which nothing is shown.
#[derive(Drop)]
pub struct ReplayReading<S> {
    pub devices: ThreeDevices<S, BadLines, Nowhere>,
    pub stream: Stream,
}

impl<S: Source> ReplayReading<S> {
    /// Nothing was read yet.
    pub fn new(source: S) -> ReplayReading<S>
        ensures stream { result.stream ≡ Unread }
        ensures source { result.devices.source ≡ source }
    {
        ReplayReading {
            devices: ThreeDevices {
                source,
                out: BadLines { count: 0 },
                rec: Nowhere,
            },
            stream: Stream::Unread,
        }
    }

    /// Which of several moves is taken where a walk stands: what `play` takes there, with the same bytes of the choices.
    pub fn answer(
        &mut self,
        walk: &Walk<'_, '_>,
        moves: &[Move],
        text: &[u8],
    ) -> Result<Answer, Broken>
        requires all { moves.now ≡ world.world_moves walk.now.state }
        requires prompt { text.now ≡ prompt (length moves.now) }
        ensures { let h = ⟦<ThreeDevices<S, BadLines, Nowhere> as Devices>⟧.holds in ReadsAnswer result h self.old self.new walk.now.state moves.now }
    {
        question(
            &mut self.devices,
            &mut self.stream,
            walk.world(),
            moves,
            text,
        )
    }
}

/// How a run goes on behind the choices of a walk, which it follows.
#[derive(Clone, Copy, Debug, PartialEq, Eq)]
pub enum Along {
    /// By the move with this number, which comes to a fault.
    Fault(usize),
    Stop(Answer),
    /// It ends there: a claim has ended, which the run violates.
    Claim,
    /// It ends there, in a state where it was before: it goes on so without an end.
    Cycle,
}

impl Along {
    // Why a run ends so.
    fn end(self, said: Answer) -> &'static str {
        match self {
            Along::Claim => "claim ended",
            Along::Cycle => "cycle",
            Along::Fault(_) | Along::Stop(_) => end_of(said),
        }
    }
}

/// Choices that are still to be taken.
#[derive(Drop)]
pub enum Replay<S> {
    /// Those that a source gives.
    Read(ReplayReading<S>),
    /// Those that a generator draws.
    Chance(Pcg32),
    /// Those of the walk that are still to come, and behind them this; and what a trail says beside its steps.
    Along(Along, Notes),
}

// What is said where a walk is followed, and this is the next of its choices.
fn said_along(along: Along, next: Option<Leg>) -> Answer {
    match (next, along) {
        (Some(leg), _) => Answer::Pick(leg.choice),
        (None, Along::Fault(choice)) => Answer::Pick(choice),
        (None, Along::Stop(said)) => said,
        (None, Along::Claim | Along::Cycle) => Answer::Ended,
    }
}

// One of so many moves, by chance.
fn drawn(generator: &mut Pcg32, most: usize) -> usize {
    if most == 0 {
        return 0;
    }
    generator.next_word() as usize % most + 1
}

impl<S: Source> Replay<S> {
    /// Which of the present moves is taken: the only one, without a line.
    pub fn next(
        &mut self,
        alloc: Global,
        walk: &Walk<'_, '_>,
        moves: &[Move],
    ) -> Result<Answer, Broken>
        requires { moves.now ≡ world.world_moves walk.now.state }
    {
        match self {
            Replay::Along(along, _) => Ok(said_along(*along, walk.next())),
            _ if moves.len() == 1 => Ok(Answer::Pick(1)),
            Replay::Chance(generator) => Ok(Answer::Pick(drawn(generator, moves.len()))),
            Replay::Read(reading) => {
                let prompt = prompt_of(alloc, moves.len())?;
                reading.answer(walk, moves, prompt.as_slice())
            }
        }
    }

    /// Why a run ends that is answered so.
    pub fn end_of(&self, said: Answer) -> &'static str {
        match self {
            Replay::Along(along, _) => along.end(said),
            _ => end_of(said),
        }
    }

    /// What a trail says beside the steps, where one is followed.
    pub fn notes(&mut self) -> Option<&mut Notes> {
        match self {
            Replay::Along(_, notes) => Some(notes),
            _ => None,
        }
    }

    /// How many bad lines were read.
    pub fn bad_lines(&self) -> u32 {
        match self {
            Replay::Read(reading) => reading.devices.out.count,
            _ => 0,
        }
    }
}
