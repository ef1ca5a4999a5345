//! Who used last what processes wait at, as text.

ghost use Rattle.view_text.specs.Written.{Stays};

use crate::target::channel_of;
use crate::uses::{ChannelUse, LastUses, Uses};
use run_state::live::Live;
use std::alloc::AllocError;
use view_cells::channels::add_channel_word;
use view_cells::processes::add_process;
use view_text::writer::Writer;
use view_waits::waits::Wait;

// Writes who did something: `proc 2 (P) took`.
fn add_use(live: &Live<'_, '_>, used: ChannelUse, word: &[u8], out: &mut Writer)
    ensures { Stays out.old out.new }
{
    if used.lives {
        add_process(live, used.process, out);
    } else {
        out.add(b"proc ");
        out.number(used.process);
        out.add(b", which has ended,");
    }
    out.add(word);
}

fn add_step(step: usize, out: &mut Writer)
    ensures { Stays out.old out.new }
{
    out.add(b" last, at step ");
    out.number(step);
}

// Writes who used a channel last.
fn add_last(live: &Live<'_, '_>, last: LastUses, out: &mut Writer)
    ensures { Stays out.old out.new }
{
    match (last.sent, last.took) {
        (None, None) => out.add(b"nothing was sent or taken"),
        (Some(sent), None) => {
            add_use(live, sent, b" sent", out);
            add_step(sent.step, out);
        }
        (None, Some(took)) => {
            add_use(live, took, b" took", out);
            add_step(took.step, out);
        }
        (Some(sent), Some(took)) => {
            add_both(live, sent, took, out);
        }
    }
}

fn add_both(live: &Live<'_, '_>, sent: ChannelUse, took: ChannelUse, out: &mut Writer)
    ensures { Stays out.old out.new }
{
    if sent.step == took.step {
        add_use(live, sent, b" sent and ", out);
        add_use(live, took, b" took", out);
        add_step(took.step, out);
    } else if sent.step > took.step {
        add_use(live, sent, b" sent", out);
        add_step(sent.step, out);
    } else {
        add_use(live, took, b" took", out);
        add_step(took.step, out);
    }
}

fn has(known: &[usize], number: usize) -> bool {
    for one in known {
        if *one == number {
            return true;
        }
    }
    false
}

// Writes the line of the channel that a process waits at, unless it was written.
fn add_channel(
    live: &Live<'_, '_>,
    wait: &Wait,
    uses: &Uses,
    known: &mut Vec<usize>,
    out: &mut Writer,
) -> Result<(), AllocError>
    ensures { Stays out.old out.new }
{
    let Some(number) = channel_of(live, wait) else {
        return Ok(());
    };
    if has(known.as_slice(), number) {
        return Ok(());
    }
    known.push(number)?;
    add_channel_word(live, number, out);
    out.add(b": ");
    add_last(live, uses.of(number), out);
    out.add(b"\n");
    Ok(())
}

/// Writes a line for each channel that is waited at, of these waits, unless it is known: who used it last.
pub fn add_channels(
    live: &Live<'_, '_>,
    waits: &[Wait],
    uses: &Uses,
    known: &mut Vec<usize>,
    out: &mut Writer,
) -> Result<(), AllocError>
    ensures { Stays out.old out.new }
{
    for wait in waits {
        add_channel(live, wait, uses, known, out)?;
    }
    Ok(())
}
