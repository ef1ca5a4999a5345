//! A whole state as a text: two states of one model are the same where their texts are.

ghost use Rattle.view_text.specs.Written.{Stays};

use promela_run::live_channel::LiveChannel;
use run_state::live::Live;
use view_text::writer::Writer;

fn add_number(number: usize, out: &mut Writer)
    ensures { Stays out.old out.new }
{
    out.number(number);
    out.add(b" ");
}

fn add_numbers(numbers: &[i32], out: &mut Writer)
    ensures { Stays out.old out.new }
{
    for number in numbers {
        out.signed(*number);
        out.add(b" ");
    }
}

// Who has exclusive control, and where each process stands.
fn add_processes(live: &Live<'_, '_>, out: &mut Writer)
    ensures { Stays out.old out.new }
{
    match live.holder() {
        Some(holder) => add_number(holder, out),
        None => out.add(b"- "),
    }
    for seat in live.seats() {
        add_number(seat.sort, out);
        add_number(seat.node, out);
    }
}

// A channel: whose it is, and its messages. Its size and its types are those of the declaration that it was made for.
fn add_channel(live: &LiveChannel, out: &mut Writer)
    ensures { Stays out.old out.new }
{
    add_number(live.frame, out);
    add_number(live.channel.len(), out);
    for place in 0..live.channel.len() {
        add_numbers(live.channel.message(place), out);
    }
}

/// Writes a whole state.
pub fn add_whole(live: &Live<'_, '_>, out: &mut Writer)
    ensures { Stays out.old out.new }
{
    add_processes(live, out);
    out.add(b"; ");
    for live in live.channels() {
        add_channel(live, out);
    }
    out.add(b"; ");
    add_numbers(live.variables().cells().as_slice(), out);
}
