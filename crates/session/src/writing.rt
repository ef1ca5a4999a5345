//! Functions that compose a piece and hand it over.
ghost use Rattle.std.specs.Prelude.{◌≡◌, ◌+◌, ◌<◌, ◌≤◌, ◌^◌, ◌++◌, IfOk, IfErr, OnOk, OnErr, length, drop};
ghost use Rattle.std.specs.Io.{StartsWith};
ghost use Rattle.std.specs.List.{Contains};
ghost use Rattle.promela_session.specs.declared.ends.Broken.TheVariants.{Memory};
ghost use Rattle.session.specs.Takes.{StopsByFault};
ghost use Rattle.session.specs.Writes.{CountsAll, Writes, kept_text, RecordsAnswer, AddsStep, Composes, Steps};
ghost use Rattle.session.specs.Gathered.{Gathers};
ghost use Rattle.profile.specs.declared.TheConstants.{LINE_BYTES};
ghost use Rattle.session.specs.Answers.{IsPickUpTo};
ghost use Rattle.promela_session.specs.Session.{place_of_move};
ghost use Rattle.session.specs.Ending.{final_lines};
ghost use Rattle.promela_session.specs.Events.{list_from, prompt, last_line, noted};

use crate::course::Course;
use crate::draft::{
    Draft, add_step, draft_fault, draft_last, draft_list, draft_placed, draft_prompt, draft_record,
};
use crate::question::put_out;
use crate::step_numbers::StepNumbers;
use crate::{Answer, Broken, Cause, Machine, Options, Report, Stop, Version};
use devices::Devices;
use diagnostics::Fault;
use std::alloc::AllocError;

/// Writes the list of a question and the prompt behind it, by one call, and leaves both in the draft.
pub fn write_question<M: Machine, D: Devices>(
    machine: &M,
    moves: &[M::Move],
    draft: &mut Draft,
    devices: &mut D,
) -> Result<(), Broken>
    requires { moves.now ≡ M.rules.moves machine.now }
    ensures within { OnOk result (draft.new.prompt ≤ length draft.new.piece.items) }
    ensures prompt { OnOk result (drop draft.new.prompt draft.new.piece.items ≡ prompt (length moves.now)) }
    ensures text { Writes result (D.holds devices.old) (D.holds devices.new) (list_from (M.rules.text machine.now) 1 moves.now ++ prompt (length moves.now)) }
    ensures count { CountsAll result (D.holds devices.old).failures (D.holds devices.new).failures }
{
    draft_list(machine, moves, draft)?;
    draft_prompt(moves.len(), draft)?;
    put_out(devices, &draft.piece)
}

/// Writes the last line.
pub fn write_last<D: Devices>(
    cause: Cause,
    steps: u32,
    draft: &mut Draft,
    devices: &mut D,
) -> Result<(), Broken>
    ensures text { Writes result (D.holds devices.old) (D.holds devices.new) (last_line cause steps) }
    ensures count { CountsAll result (D.holds devices.old).failures (D.holds devices.new).failures }
{
    draft_last(cause, steps, &mut draft.piece)?;
    put_out(devices, &draft.piece)
}

/// Writes the last lines where there is no move, and answers whether the end is a valid one.
pub fn write_ending<M: Machine, D: Devices>(
    machine: &M,
    steps: u32,
    draft: &mut Draft,
    devices: &mut D,
) -> Result<bool, Broken>
    ensures text { Writes result (D.holds devices.old) (D.holds devices.new) (final_lines (M.rules.is_valid machine.now) (M.rules.stuck machine.now) steps) }
    ensures valid { IfOk result (λ valid. valid ≡ M.rules.is_valid machine.now) }
    ensures count { CountsAll result (D.holds devices.old).failures (D.holds devices.new).failures }
{
    draft_last(Cause::Invalid, steps, &mut draft.piece)?;
    let valid = machine.report(Report::Ending, &mut draft.piece)?;
    if valid {
        draft_last(Cause::Valid, steps, &mut draft.piece)?;
    }
    put_out(devices, &draft.piece)?;
    Ok(valid)
}

/// Composes the line of an accepted number, in this version.
#[inline(always)]
fn draft_noted<M: Machine>(
    notes: Version,
    n: usize,
    machine: &M,
    moves: &[M::Move],
    draft: &mut Draft,
) -> Result<(), AllocError>
    requires all { moves.now ≡ M.rules.moves machine.now }
    requires some { 0 < n }
    requires within { n ≤ length moves.now }
    ensures line { OnOk result (draft.new.piece.items ≡ noted notes n (place_of_move M.rules machine.now moves.now n)) }
    ensures short { length (noted notes n (place_of_move M.rules machine.now moves.now n)) ≤ LINE_BYTES + 1 }
{
    match notes {
        Version::First => draft_record(n, &mut draft.piece),
        Version::Second => {
            let (process, line) = machine.origin(&moves[n - 1]);
            draft_placed(n, process, line, &mut draft.piece)
        }
    }
}

/// Records an accepted number, in a line of this version.
pub fn keep<M: Machine, D: Devices>(
    notes: Version,
    said: Answer,
    machine: &M,
    moves: &[M::Move],
    draft: &mut Draft,
    devices: &mut D,
) -> Result<(), Broken>
    requires all { moves.now ≡ M.rules.moves machine.now }
    requires range { IsPickUpTo (length moves.now) said }
    ensures text { RecordsAnswer result (D.holds devices.old) (D.holds devices.new) (kept_text notes (place_of_move M.rules machine.now moves.now) said) }
    ensures short { length (kept_text notes (place_of_move M.rules machine.now moves.now) said) ≤ LINE_BYTES + 1 }
    ensures count { CountsAll result (D.holds devices.old).failures (D.holds devices.new).failures }
{
    match said {
        Answer::Pick(n) => {
            draft_noted(notes, n, machine, moves, draft)?;
            match devices.keep(&draft.piece) {
                Ok(()) => Ok(()),
                Err(_) => Err(Broken::Record),
            }
        }
        _ => Ok(()),
    }
}

// Takes a step and appends its text. After a fault, or where memory is refused, the text has its old bytes, perhaps with more behind
// them.
#[inline(always)]
fn add_taken<M: Machine>(
    machine: &mut M,
    m: &M::Move,
    options: &Options,
    n: u64,
    numbers: &mut StepNumbers,
    text: &mut Vec<u8>,
) -> Result<(), Stop>
    requires { Contains (M.rules.moves machine.old) m.now }
    ensures taken { OnOk result (AddsStep M.rules options.now machine.old m.now n machine.new text.old.items text.new.items) }
    ensures fault { IfErr result (StopsByFault M.rules machine.old m.now machine.new) }
    ensures kept { OnErr result (StartsWith text.new.items text.old.items) }
{
    if options.steps && add_step(machine, m, n, numbers, text).is_err() {
        return Err(Stop::Memory);
    }
    machine.take(m, text)?;
    let shown = Report::Values(options.globals, options.locals);
    match machine.report(shown, text) {
        Ok(_) => Ok(()),
        Err(_) => Err(Stop::Memory),
    }
}

/// Takes a step and composes its text, or the line of its fault. Where steps are not shown, the move's text is composed for
/// a fault alone.
#[inline(always)]
fn take_step<M: Machine>(
    machine: &mut M,
    m: &M::Move,
    options: &Options,
    steps: u32,
    draft: &mut Draft,
) -> Result<Option<Fault>, Broken>
    requires { Contains (M.rules.moves machine.old) m.now }
    ensures text { IfOk result (Composes M.rules options.now machine.old m.now steps machine.new draft.new.piece.items) }
    ensures broken { IfErr result (λ e. e ≡ Memory) }
{
    let n = u64::from(steps) + 1;
    draft.piece.clear();
    match add_taken(machine, m, options, n, &mut draft.numbers, &mut draft.piece) {
        Ok(()) => Ok(None),
        Err(Stop::Fault(f)) => {
            draft_fault(machine, m, f, n, draft)?;
            Ok(Some(f))
        }
        Err(Stop::Memory) => Err(Broken::Memory),
    }
}

/// Takes a step and gathers its text, or composes the line of its fault.
#[inline(always)]
pub fn gather_step<M: Machine>(
    machine: &mut M,
    m: &M::Move,
    options: &Options,
    steps: u32,
    run: &mut Course,
) -> Result<Option<Fault>, Broken>
    requires { Contains (M.rules.moves machine.old) m.now }
    ensures text { IfOk result (Gathers M.rules options.now machine.old m.now steps machine.new run.old run.new) }
    ensures bytes { OnErr result (run.new.gathered.bytes.items ≡ run.old.gathered.bytes.items) }
    ensures begins { OnErr result (run.new.gathered.begins.items ≡ run.old.gathered.begins.items) }
    ensures broken { IfErr result (λ e. e ≡ Memory) }
    ensures still { run.new.stream ≡ run.old.stream }
{
    let n = u64::from(steps) + 1;
    let begin = run.gathered.bytes.len();
    match add_taken(
        machine,
        m,
        options,
        n,
        &mut run.draft.numbers,
        &mut run.gathered.bytes,
    ) {
        Ok(()) => {
            run.gathered.end_text(begin)?;
            Ok(None)
        }
        Err(Stop::Fault(f)) => {
            run.gathered.bytes.truncate(begin);
            draft_fault(machine, m, f, n, &mut run.draft)?;
            Ok(Some(f))
        }
        Err(Stop::Memory) => {
            run.gathered.bytes.truncate(begin);
            Err(Broken::Memory)
        }
    }
}

/// Takes a step and writes its text, or the line of its fault.
pub fn step<M: Machine, D: Devices>(
    machine: &mut M,
    m: &M::Move,
    options: &Options,
    steps: &mut u32,
    draft: &mut Draft,
    devices: &mut D,
) -> Result<Option<Fault>, Broken>
    requires present { Contains (M.rules.moves machine.old) m.now }
    requires room { steps.old + 1 < 2 ^ 32 }
    ensures step { Steps result M.rules options.now machine.old m.now steps.old machine.new steps.new (D.holds devices.old) (D.holds devices.new) }
    ensures count { CountsAll result (D.holds devices.old).failures (D.holds devices.new).failures }
{
    match take_step(machine, m, options, *steps, draft)? {
        None => {
            *steps += 1;
            put_out(devices, &draft.piece)?;
            Ok(None)
        }
        Some(f) => {
            put_out(devices, &draft.piece)?;
            Ok(Some(f))
        }
    }
}
