//! The session as a whole.
ghost use Rattle.std.specs.Prelude.{◌≡◌, ◌<◌, ◌≤◌, ◌+◌, ◌^◌, List, ℕ, length, IfOk, IfNone, IfSome, ◌≢◌};
ghost use Rattle.std.specs.List.{Contains};
ghost use Rattle.session.specs.Answers.{IsPickUpTo};
ghost use Rattle.promela_session.specs.Session.{select_move, end_of, transcript, transcript_noting};
ghost use Rattle.session.specs.Ending.{final_lines, final_cause};
ghost use Rattle.session.specs.Answers.{cause_of};
ghost use Rattle.session.specs.Takes.{choice_at};
ghost use Rattle.session.specs.Writes.{PlaysQuestion, CountsAll, Writes, Acts, Turns, Runs, IsOwnEnd};
ghost use Rattle.promela_session.specs.Events.{last_line, status_of};
ghost use Rattle.session.specs.Gathered.{AreFew, Advances, TurnsOn};
ghost use Rattle.promela_session.specs.Devices.{Ends, IsBrokenOff, failure_of, CanBeReplayed};

use crate::course::{Course, Terms};
use crate::draft::Draft;
use crate::question::{put_out, question};
use crate::writing::{gather_step, keep, step, write_ending, write_last, write_question};
use crate::{Answer, Broken, Cause, End, Machine, Options, Stream, Version};
use devices::Devices;
use std::alloc::Global;

// Asks for one of several moves, and records the answer.
fn choose<M: Machine, D: Devices>(
    notes: Version,
    machine: &M,
    moves: &[M::Move],
    stream: &mut Stream,
    draft: &mut Draft,
    devices: &mut D,
) -> Result<Answer, Broken>
    requires { moves.now ≡ M.rules.moves machine.now }
    ensures part { PlaysQuestion result (D.holds devices.old) (D.holds devices.new) (choice_at notes M.rules machine.now moves.now stream.old) stream.new }
    ensures range { IfOk result (IsPickUpTo (length moves.now)) }
    ensures count { CountsAll result (D.holds devices.old).failures (D.holds devices.new).failures }
{
    write_question(machine, moves, draft, devices)?;
    let prompt = &draft.piece[draft.prompt..];
    let said = question(devices, stream, machine, moves, prompt)?;
    keep(notes, said, machine, moves, draft, devices)?;
    Ok(said)
}

// Takes one move without asking, and asks for one of several.
fn select<M: Machine, D: Devices>(
    notes: Version,
    machine: &M,
    moves: &[M::Move],
    stream: &mut Stream,
    draft: &mut Draft,
    devices: &mut D,
) -> Result<Answer, Broken>
    requires all { moves.now ≡ M.rules.moves machine.now }
    requires some { 0 < length moves.now }
    ensures part { PlaysQuestion result (D.holds devices.old) (D.holds devices.new) (select_move notes M.rules machine.now moves.now stream.old) stream.new }
    ensures range { IfOk result (IsPickUpTo (length moves.now)) }
    ensures count { CountsAll result (D.holds devices.old).failures (D.holds devices.new).failures }
{
    if moves.len() == 1 {
        return Ok(Answer::Pick(1));
    }
    choose(notes, machine, moves, stream, draft, devices)
}

fn status(cause: Cause) -> u8
    ensures { result ≡ status_of cause }
{
    match cause {
        Cause::Valid | Cause::Quit => 0,
        Cause::Invalid => 1,
        Cause::Fault(_) => 2,
        Cause::Refused(_, _) => 3,
        Cause::ChoicesEnded
        | Cause::LineTooLong
        | Cause::BadChoices
        | Cause::Misfit
        | Cause::StepLimit => 5,
        Cause::SourceFailed | Cause::OutFailed | Cause::RecordFailed | Cause::Memory => 6,
    }
}

/// How a session ends by this cause.
pub fn end_of(cause: Cause, steps: u32) -> End
    ensures { result ≡ end_of cause steps }
{
    End {
        status: status(cause),
        steps,
        cause,
    }
}

// Writes the last line, and ends the session.
fn stop<D: Devices>(
    cause: Cause,
    steps: u32,
    draft: &mut Draft,
    devices: &mut D,
) -> Result<End, Broken>
    requires { status_of cause < 6 }
    ensures text { Writes result (D.holds devices.old) (D.holds devices.new) (last_line cause steps) }
    ensures end { IfOk result (λ end. end ≡ end_of cause steps) }
    ensures own { IfOk result (IsOwnEnd steps) }
    ensures count { CountsAll result (D.holds devices.old).failures (D.holds devices.new).failures }
{
    write_last(cause, steps, draft, devices)?;
    Ok(end_of(cause, steps))
}

// Writes the last lines where there is no move, and ends the session.
fn finish<M: Machine, D: Devices>(
    machine: &M,
    steps: u32,
    draft: &mut Draft,
    devices: &mut D,
) -> Result<End, Broken>
    ensures text { Writes result (D.holds devices.old) (D.holds devices.new) (final_lines (M.rules.is_valid machine.now) (M.rules.stuck machine.now) steps) }
    ensures end { IfOk result (λ end. end ≡ end_of (final_cause (M.rules.is_valid machine.now)) steps) }
    ensures own { IfOk result (IsOwnEnd steps) }
    ensures count { CountsAll result (D.holds devices.old).failures (D.holds devices.new).failures }
{
    if write_ending(machine, steps, draft, devices)? {
        return Ok(end_of(Cause::Valid, steps));
    }
    Ok(end_of(Cause::Invalid, steps))
}

// Why the session ends at an answer that picks no move.
fn cause_of(said: Answer) -> Cause
    ensures cause { result ≡ cause_of said }
    ensures own { status_of result < 6 }
{
    match said {
        Answer::Pick(_) => Cause::StepLimit,
        Answer::Quit => Cause::Quit,
        Answer::Ended => Cause::ChoicesEnded,
        Answer::TooLong => Cause::LineTooLong,
        Answer::Hundred => Cause::BadChoices,
        Answer::Misfit => Cause::Misfit,
    }
}

// Selects a move and takes it, or ends the session.
fn act<M: Machine, D: Devices>(
    terms: &Terms,
    machine: &mut M,
    moves: &[M::Move],
    steps: &mut u32,
    course: &mut Course,
    devices: &mut D,
) -> Result<Option<End>, Broken>
    requires all { moves.now ≡ M.rules.moves machine.old }
    requires some { 0 < length moves.now }
    requires room { steps.old + 1 < 2 ^ 32 }
    ensures part { Acts result terms.now M.rules machine.old machine.new (D.holds devices.old) (D.holds devices.new) steps.old steps.new course.old course.new }
    ensures falls { IfOk result (λ end. IfNone end (steps.new ≡ steps.old + 1)) }
    ensures own { IfOk result (λ end. IfSome end (IsOwnEnd steps.new)) }
    ensures count { CountsAll result (D.holds devices.old).failures (D.holds devices.new).failures }
    ensures waits { course.new.gathered ≡ course.old.gathered }
{
    let said = select(
        terms.notes,
        machine,
        moves,
        &mut course.stream,
        &mut course.draft,
        devices,
    )?;
    if let Answer::Pick(n) = said {
        return match step(
            machine,
            &moves[n - 1],
            &terms.options,
            steps,
            &mut course.draft,
            devices,
        )? {
            None => Ok(None),
            Some(f) => Ok(Some(end_of(Cause::Fault(f), *steps))),
        };
    }
    Ok(Some(stop(cause_of(said), *steps, &mut course.draft, devices)?))
}

// The end, or a question and the step that is picked.
fn ask_or_end<M: Machine, D: Devices>(
    terms: &Terms,
    machine: &mut M,
    moves: &[M::Move],
    steps: &mut u32,
    course: &mut Course,
    devices: &mut D,
) -> Result<Option<End>, Broken>
    requires within { steps.old ≤ terms.now.options.limit }
    requires all { moves.now ≡ M.rules.moves machine.old }
    ensures part { Turns result terms.now M.rules machine.old machine.new (D.holds devices.old) (D.holds devices.new) steps.old steps.new course.old course.new }
    ensures own { IfOk result (λ end. IfSome end (IsOwnEnd steps.new)) }
    ensures falls { IfOk result (λ end. IfNone end ((steps.old < steps.new) × (steps.new ≤ terms.now.options.limit))) }
    ensures count { CountsAll result (D.holds devices.old).failures (D.holds devices.new).failures }
    ensures waits { course.new.gathered ≡ course.old.gathered }
{
    if moves.len() == 0 {
        return Ok(Some(finish(machine, *steps, &mut course.draft, devices)?));
    }
    if *steps == terms.options.limit {
        return Ok(Some(stop(Cause::StepLimit, *steps, &mut course.draft, devices)?));
    }
    act(terms, machine, moves, steps, course, devices)
}

// Takes the one move that there is and gathers the text of its step, or writes the line of its fault and ends the session.
fn advance<M: Machine, D: Devices>(
    terms: &Terms,
    machine: &mut M,
    m: &M::Move,
    steps: &mut u32,
    run: &mut Course,
    devices: &mut D,
) -> Result<Option<End>, Broken>
    requires present { Contains (M.rules.moves machine.old) m.now }
    requires room { steps.old + 1 < 2 ^ 32 }
    ensures part { Advances result terms.now M.rules machine.old m.now machine.new (D.holds devices.old) (D.holds devices.new) steps.old steps.new run.old run.new }
    ensures own { IfOk result (λ end. IfSome end (IsOwnEnd steps.new)) }
    ensures falls { IfOk result (λ end. IfNone end (steps.new ≡ steps.old + 1)) }
    ensures count { CountsAll result (D.holds devices.old).failures (D.holds devices.new).failures }
    ensures still { run.new.stream ≡ run.old.stream }
    ensures few { IfOk result (λ end. IfNone end (AreFew run.new)) }
{
    match gather_step(machine, m, &terms.options, *steps, run)? {
        Some(f) => {
            run.gathered.write(steps, devices)?;
            put_out(devices, &run.draft.piece)?;
            Ok(Some(end_of(Cause::Fault(f), *steps)))
        }
        None => {
            *steps += 1;
            if run.gathered.is_enough() {
                run.gathered.write(steps, devices)?;
            }
            Ok(None)
        }
    }
}

// One turn: the end, or a step. The moves are listed in a buffer that is kept. The texts of steps between which nothing is asked are
// gathered, and written before anything else is.
fn turn<M: Machine, D: Devices>(
    terms: &Terms,
    machine: &mut M,
    moves: &mut Vec<M::Move>,
    steps: &mut u32,
    course: &mut Course,
    devices: &mut D,
) -> Result<Option<End>, Broken>
    requires { steps.old ≤ terms.now.options.limit }
    ensures part { TurnsOn result terms.now M.rules machine.old machine.new (D.holds devices.old) (D.holds devices.new) steps.old steps.new course.old course.new }
    ensures own { IfOk result (λ end. IfSome end (IsOwnEnd steps.new)) }
    ensures falls { IfOk result (λ end. IfNone end ((steps.old < steps.new) × (steps.new ≤ terms.now.options.limit))) }
    ensures count { CountsAll result (D.holds devices.old).failures (D.holds devices.new).failures }
    ensures few { IfOk result (λ end. IfNone end (AreFew course.new)) }
{
    machine.moves(moves)?;
    if moves.len() == 1 && *steps < terms.options.limit {
        return advance(terms, machine, &moves[0], steps, course, devices);
    }
    course.gathered.write(steps, devices)?;
    ask_or_end(terms, machine, &*moves, steps, course, devices)
}

/// Runs the session to its end, with a record in lines of this version, and counts its steps.
pub fn run<M: Machine, D: Devices>(
    alloc: Global,
    notes: Version,
    machine: &mut M,
    options: &Options,
    steps: &mut u32,
    devices: &mut D,
) -> Result<End, Broken>
    requires { steps.old ≡ 0 }
    ensures part { Runs result (D.holds devices.old) (D.holds devices.new) steps.new (transcript_noting notes M.rules options.now machine.old) }
    ensures own { IfOk result (IsOwnEnd steps.new) }
    ensures count { CountsAll result (D.holds devices.old).failures (D.holds devices.new).failures }
{
    let terms = Terms {
        notes,
        options: *options,
    };
    let mut moves = Vec::new(alloc);
    let mut course = Course::new(alloc);
    loop {
        match turn(&terms, machine, &mut moves, steps, &mut course, devices) {
            Ok(None) => {}
            Ok(Some(end)) => return Ok(end),
            Err(broken) => {
                course.gathered.write(steps, devices)?;
                return Err(broken);
            }
        }
    }
}

/// The cause of a session that was broken off.
pub fn failure(broken: Broken) -> Cause
    ensures { result ≡ failure_of broken }
{
    match broken {
        Broken::Source => Cause::SourceFailed,
        Broken::Out => Cause::OutFailed,
        Broken::Record => Cause::RecordFailed,
        Broken::Memory => Cause::Memory,
    }
}

/// Plays the session of a machine. Where the status is not 6, the two sinks have taken the output and the record of
/// its transcript, exactly the bytes that it asks for were read, and its end is answered. Where it is 6, what the
/// devices hold is where a beginning of the transcript's events leaves them. A run can be played again on its record:
/// one that came to an end of its own, or to the limit, is then the same but for its bad lines, and one that the choices
/// cut short takes the same steps and ends where they ended.
pub fn play<M: Machine, D: Devices>(
    alloc: Global,
    machine: &mut M,
    options: &Options,
    devices: &mut D,
) -> End
    ensures left { (left : List ℕ) × (D.holds devices.new).source left }
    ensures whole { result.status ≢ 6 → Ends (D.holds devices.old) (D.holds devices.new) result.steps (transcript M.rules options.now machine.old) result }
    ensures quiet { result.status ≢ 6 → (D.holds devices.new).failures ≡ (D.holds devices.old).failures }
    ensures broken { result.status ≡ 6 → IsBrokenOff (D.holds devices.old) (D.holds devices.new) (transcript M.rules options.now machine.old) result }
    ensures end { result ≡ end_of result.cause result.steps }
    ensures replay { CanBeReplayed (transcript M.rules options.now machine.old) }
{
    let mut steps = 0;
    match run(alloc, Version::First, machine, options, &mut steps, devices) {
        Ok(end) => end,
        Err(broken) => end_of(failure(broken), steps),
    }
}
