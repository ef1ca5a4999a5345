//! Plays a row, and compares what stands behind it with what it says.
use crate::failing::tell_each;
use crate::player::{SessionOutcome, played};
use crate::replay::tell_again;
use crate::row::{Fails, RowSource, SessionRow, WORDS};
use crate::texts::{kept, unescaped};
use row_files::{Refused, RowReport, RowWriter, blocks};
use session::{Cause, End};
use std::alloc::Global;

/// What the output says of an end before the number of steps, where it says both.
fn words_of(cause: &Cause) -> Option<&'static str> {
    match cause {
        Cause::Valid => Some("end: valid"),
        Cause::Quit => Some("end: quit"),
        Cause::Invalid => Some("end: invalid"),
        Cause::ChoicesEnded => Some("stop: choices ended"),
        Cause::LineTooLong => Some("stop: line too long"),
        Cause::BadChoices => Some("stop: 100 bad choices"),
        Cause::Misfit => Some("stop: choice misfit"),
        Cause::StepLimit => Some("stop: step limit"),
        _ => None,
    }
}

/// What the output of a session with this end says of it.
fn said(alloc: Global, told: &mut RowReport, end: &End) -> &'static str {
    let mut out = RowWriter::new(alloc);
    match words_of(&end.cause) {
        Some(words) => {
            out.word(words);
            out.word(", steps ");
            out.count(end.steps);
            out.word("\n");
        }
        None => say_other(&mut out, end),
    }
    kept(out, told)
}

/// Writes what the output says of an end where it does not say the number of steps behind it.
fn say_other(out: &mut RowWriter, end: &End) {
    match end.cause {
        Cause::Fault(_) => {
            out.word("): step ");
            out.count(end.steps.saturating_add(1));
            out.word(": ");
        }
        Cause::Refused(refusal, _) => {
            out.word("refused M");
            out.number(usize::from(refusal.number()));
            out.word(" (");
        }
        _ => out.word("a device or memory failed"),
    }
}

fn line_of(end: &End) -> u32 {
    match end.cause {
        Cause::Refused(_, line) => line,
        _ => 0,
    }
}

/// Tells where a session ends for another cause than its row says: in its output, or by the device that fails.
fn tell_end(alloc: Global, told: &mut RowReport, row: &SessionRow, end: &End) {
    let said = said(alloc, told, end);
    if let Fails::Once(device, _) = row.fails {
        if end.cause != device.cause() {
            told.bytes("end", b"the device fails", said.as_bytes());
        }
    } else if !row.output.contains(said) {
        told.bytes("end", row.output.as_bytes(), said.as_bytes());
    }
}

/// Tells what a session has otherwise than its row.
fn tell_behind(told: &mut RowReport, row: &SessionRow, behind: &SessionOutcome) {
    let end = &behind.end;
    let read = row.session.choices.len().saturating_sub(behind.unread);
    told.bytes("output", row.output.as_bytes(), behind.out);
    told.bytes("record", row.record, behind.rec);
    told.number("status", row.status, usize::from(end.status));
    told.number("bytes that are read", row.read, read);
    told.number("line of the refusal", row.line, line_of(end) as usize);
    if let Some(steps) = row.steps {
        told.number("number of steps", steps, end.steps as usize);
    }
}

/// Tells what is otherwise where a row is played again: with failing devices, or from its record.
fn tell_rest(alloc: Global, told: &mut RowReport, row: &SessionRow, behind: &SessionOutcome) {
    match row.fails {
        Fails::Once(_, _) => {}
        Fails::InTurn(device) => tell_each(alloc, told, &row.session, device, behind),
        Fails::Nothing if row.record.is_empty() => {}
        Fails::Nothing => tell_again(alloc, told, row, behind),
    }
}

/// Tells what is otherwise than a row says.
fn tell_row(alloc: Global, told: &mut RowReport, row: &SessionRow) {
    let behind = played(alloc, &row.session, told);
    tell_behind(told, row, &behind);
    tell_end(alloc, told, row, &behind.end);
    tell_rest(alloc, told, row, &behind);
}

/// Tells where a text of rows is not refused with these words.
fn tell_file(alloc: Global, told: &mut RowReport, text: &'static str, wanted: &str) {
    match blocks(alloc, text, &WORDS) {
        Ok(_) => told.add("it is not refused\n"),
        Err(refused) => tell_refusal(alloc, told, refused, wanted),
    }
}

/// Tells where a refusal is another one.
fn tell_refusal(alloc: Global, told: &mut RowReport, refused: Refused, wanted: &str) {
    let mut came = RowWriter::new(alloc);
    came.word("line ");
    came.count(refused.line);
    came.word(": ");
    came.word(refused.why);
    told.bytes("refusal", wanted.as_bytes(), came.text().as_bytes());
}

/// Tells what is otherwise than a block says. One that is no row is told of too.
pub fn tell(entry: RowSource, told: &mut RowReport) {
    if let Some(wanted) = entry.block.behind("refused") {
        let text = entry.block.behind("file").unwrap_or("");
        let text = unescaped(entry.alloc, text, told);
        return tell_file(entry.alloc, told, text, wanted);
    }
    let row = entry.row(told);
    if told.is_empty() {
        tell_row(entry.alloc, told, &row);
    }
}
