//! Plays a session again on its record, and on its choices as they are converted.
use crate::player::{Session, SessionOutcome, SessionWay, played};
use crate::row::SessionRow;
use row_files::{RowReport, RowWriter};
use session::Cause;
use std::alloc::Global;

/// What the output has behind a line `bad choice`: the first line of it is the prompt, and is left out.
fn add_behind(kept: &mut RowWriter, text: &str) {
    if let Some((_, lines)) = text.split_once('\n') {
        kept.word("\n");
        kept.word(lines);
    }
}

/// The output without the lines `bad choice` and the prompts behind them.
fn without_bad_lines(alloc: Global, out: &str) -> RowWriter {
    let mut kept = RowWriter::new(alloc);
    let mut begun = false;
    for text in out.split("\nbad choice\n") {
        if begun {
            add_behind(&mut kept, text);
        } else {
            kept.word(text);
        }
        begun = true;
    }
    kept
}

/// Whether a run was ended by its choices: a replay of its record then ends where they do.
fn is_cut_short(cause: &Cause) -> bool {
    matches!(
        cause,
        Cause::Quit | Cause::ChoicesEnded | Cause::LineTooLong | Cause::BadChoices | Cause::Misfit
    )
}

/// Tells where the output of a replay is another one than that of the session, without its bad lines.
fn tell_output(
    alloc: Global,
    told: &mut RowReport,
    before: &SessionOutcome,
    again: &SessionOutcome,
) {
    match str::from_utf8(before.out) {
        Ok(out) => {
            let wanted = without_bad_lines(alloc, out);
            told.bytes("output of the replay", wanted.text().as_bytes(), again.out);
        }
        Err(_) => told.add("an output that is no text\n"),
    }
}

/// Tells where the end of a replay is another one than it should be.
fn tell_end(alloc: Global, told: &mut RowReport, before: &SessionOutcome, again: &SessionOutcome) {
    let (then, now) = (&before.end, &again.end);
    if is_cut_short(&then.cause) {
        let ended = now.cause == Cause::ChoicesEnded;
        told.number("end of the replay's choices", 1, usize::from(ended));
        told.number("status of the replay", 5, usize::from(now.status));
        return;
    }
    told.number(
        "status of the replay",
        usize::from(then.status),
        usize::from(now.status),
    );
    tell_output(alloc, told, before, again);
}

/// Tells what a session on the record of another has otherwise.
fn tell_replay(
    alloc: Global,
    told: &mut RowReport,
    before: &SessionOutcome,
    again: &SessionOutcome,
) {
    let (then, now) = (before.end.steps, again.end.steps);
    told.bytes("record of the replay", before.rec, again.rec);
    told.number("rest that the replay leaves unread", 0, again.unread);
    told.number("number of steps of the replay", then as usize, now as usize);
    tell_end(alloc, told, before, again);
}

/// Tells what a session on converted choices has otherwise than the one on the record.
fn tell_second(told: &mut RowReport, first: &SessionOutcome, second: &SessionOutcome) {
    let (then, now) = (&first.end, &second.end);
    told.bytes("output on the converted choices", first.out, second.out);
    told.bytes("record of the converted choices", first.rec, second.rec);
    told.number(
        "status on the converted choices",
        usize::from(then.status),
        usize::from(now.status),
    );
    told.number(
        "number of steps on the converted choices",
        then.steps as usize,
        now.steps as usize,
    );
    told.number("rest of the converted choices", 0, second.unread);
}

/// The session of a row on these choices, played or converted.
fn again(
    alloc: Global,
    told: &mut RowReport,
    row: &SessionRow,
    way: SessionWay,
    choices: &'static [u8],
) -> SessionOutcome {
    let session = Session {
        way,
        choices,
        ..row.session
    };
    played(alloc, &session, told)
}

/// Tells what is otherwise where a row is played again on its record, and on its choices as they are converted to the second version.
pub fn tell_again(alloc: Global, told: &mut RowReport, row: &SessionRow, before: &SessionOutcome) {
    let first = again(alloc, told, row, SessionWay::Played, row.record);
    tell_replay(alloc, told, before, &first);
    let second = again(alloc, told, row, SessionWay::Converted, row.session.choices);
    told.number(
        "status of the conversion",
        row.status,
        usize::from(second.end.status),
    );
    let third = again(alloc, told, row, SessionWay::Played, second.out);
    tell_second(told, &first, &third);
}
