//! The rows of a chart.

ghost use Rattle.view_text.specs.Written.{Stays};

use crate::row::ChartRow;
use promela_run::moves::Move;
use run_state::live::Live;
use view_cells::channels::{add_fields, add_short_name, channel_at};
use view_cells::processes::add_name;
use view_text::writer::Writer;
use view_waits::transfer::{Does, Transfer};
use view_waits::waits::starter_of;

/// How many bytes a column has, where so many processes live at once at most: a row has 80 where it can.
pub fn width_of(most: usize) -> usize {
    if most == 0 {
        return 24;
    }
    (73 / most).max(12).min(24)
}

// Writes the name of a channel, a sign, and the fields of a message: `q!1,2`.
fn add_label(live: &Live<'_, '_>, transfer: &Transfer, sign: &[u8], out: &mut Writer)
    ensures { Stays out.old out.new }
{
    add_short_name(live, transfer.channel, out);
    out.add(sign);
    if let Some(channel) = channel_at(live, transfer.channel) {
        add_fields(
            live,
            channel.types(),
            transfer.message.as_slice(),
            b",",
            out,
        );
    }
}

/// Writes the row of a process that begins.
pub fn add_birth(live: &Live<'_, '_>, width: usize, step: usize, process: usize, out: &mut Writer)
    ensures { Stays out.old out.new }
{
    let mut label = Writer::new(out.allocator());
    add_name(live, process, &mut label);
    label.add(b" ");
    label.number(process);
    let mut row = ChartRow::new(out.allocator(), width, step);
    row.living(process);
    row.column(b"+", label.bytes());
    row.end(out);
    out.keep_refusal(&label);
}

fn add_death(width: usize, step: usize, process: usize, out: &mut Writer)
    ensures { Stays out.old out.new }
{
    let mut row = ChartRow::new(out.allocator(), width, step);
    row.living(process);
    row.column(b"x", b"");
    row.end(out);
}

// Writes the row of a rendezvous.
fn add_pass(row: &mut ChartRow, alive: usize, from: usize, to: usize, label: &[u8])
    ensures { Stays row.old.text row.new.text }
{
    let low = from.min(to);
    let high = from.max(to);
    row.living(low);
    row.arrow(high.saturating_sub(low), from < to, label);
    row.living(alive.saturating_sub(high));
}

// Writes the columns of a step in which one process acts.
fn add_act(row: &mut ChartRow, alive: usize, process: usize, label: &[u8])
    ensures { Stays row.old.text row.new.text }
{
    row.living(process);
    row.column(b"*", label);
    row.living(alive.saturating_sub(process).saturating_sub(1));
}

fn sign_of(does: Does) -> Option<&'static str> {
    match does {
        Does::Send | Does::Pass => Some("!"),
        Does::Receive => Some("?"),
        Does::Read => Some("?<>"),
        Does::Lose => Some("!!lost "),
        Does::Statement | Does::End => None,
    }
}

/// Writes the row of a move of this state, if it has one: it passes a message, or ends a process.
pub fn add_row(
    live: &Live<'_, '_>,
    width: usize,
    step: usize,
    m: &Move,
    transfer: &Transfer,
    out: &mut Writer,
)
    ensures { Stays out.old out.new }
{
    if let Move::Death(process) = m {
        return add_death(width, step, *process, out);
    }
    let Some(sign) = sign_of(transfer.does) else {
        return;
    };
    let mut label = Writer::new(out.allocator());
    add_label(live, transfer, sign.as_bytes(), &mut label);
    let alive = live.process_count();
    let mut row = ChartRow::new(out.allocator(), width, step);
    match m {
        Move::Pair(sender, receiver, _) => {
            add_pass(
                &mut row,
                alive,
                sender.process,
                receiver.process,
                label.bytes(),
            )
        }
        _ => add_act(&mut row, alive, starter_of(m), label.bytes()),
    }
    row.end(out);
    out.keep_refusal(&label);
}

/// Writes a row of words about a step.
pub fn add_note(step: usize, words: &[u8], out: &mut Writer)
    ensures { Stays out.old out.new }
{
    let mut row = ChartRow::new(out.allocator(), 0, step);
    row.words(words);
    row.end(out);
}

/// Writes the row of a step with which a claim moves to a line: `claim line 4`.
pub fn add_claim(step: usize, line: usize, out: &mut Writer)
    ensures { Stays out.old out.new }
{
    let mut row = ChartRow::new(out.allocator(), 0, step);
    row.words(b"claim line ");
    row.number(line);
    row.end(out);
}

/// Writes the last row: `end: valid, steps 9`.
pub fn add_end(steps: usize, end: &[u8], out: &mut Writer)
    ensures { Stays out.old out.new }
{
    let mut row = ChartRow::new(out.allocator(), 0, steps);
    row.words(b"end: ");
    row.words(end);
    row.words(b", steps ");
    row.number(steps);
    row.end(out);
}
